mod given;
mod hub;
mod node;
mod settled;
