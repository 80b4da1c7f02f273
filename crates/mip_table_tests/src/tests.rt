mod bcache;
mod bulist;
mod chain;
mod discovery;
mod frames;
mod marks;
mod outside;
mod verdict;
