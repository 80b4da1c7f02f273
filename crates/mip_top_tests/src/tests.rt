mod driven;
mod failing;
