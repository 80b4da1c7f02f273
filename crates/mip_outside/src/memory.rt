//! Forms that live in memory and tell what they hold.

mod calls;
mod copying;
mod free_place;
mod outbox;
mod set_clock;
mod sure_link;
mod sure_sink;
mod sure_source;
mod text_sink;
mod text_source;

pub use free_place::FreePlace;
pub use outbox::Outbox;
pub use set_clock::SetClock;
pub use sure_link::SureLink;
pub use sure_sink::SureSink;
pub use sure_source::SureSource;
pub use text_sink::TextSink;
pub use text_source::TextSource;
