//! What is made of a seed and a count.

ghost use Rattle.std.specs.Prelude.{◌≡◌, ◌≤◌, ◌⊎◌, IfOk};
ghost use Rattle.mip_outside.specs.Cause.{Rose};
ghost use Rattle.mip_schedule.specs.Schedules.{content};
ghost use Rattle.mip_make.specs.Made.{made as schedule_of};
ghost use Rattle.mip_replies.specs.Answers.{made_answer, product_text};
ghost use Rattle.mip_replies.specs.declared.product.Product.TheVariants as products;
ghost use Rattle.mip_replies.specs.Told.{Told};

use crate::product::Product;
use crate::reply::Reply;
use crate::status::Status;
use crate::telling::tell_reply;
use mip_commands::Draft;
use mip_make::{Tally, make, spell};
use mip_outside::Sink;
use mip_replay::Run;
use mip_schedule::Schedule;
use mip_words::{Bytes, Memory};
use std::alloc::Global;

/// The summary of a schedule's run, of which no more than a piece is kept, and whose trace is never spelled.
fn summary_of_run(alloc: Global, schedule: Schedule) -> Result<Bytes, Memory>
    ensures { IfOk result (λ text. text ≡ product_text products.Summary (content schedule)) }
{
    let events = schedule.events.len();
    let mut tally = Tally::new();
    let (mut run, _) = Run::open(alloc, schedule)?;
    while let Some(piece) = run.next(alloc)? {
        tally.take(&piece);
    }
    tally.text(alloc, events)
}

fn text_of(alloc: Global, product: Product, draft: &Draft) -> Result<Bytes, Memory>
    requires { draft.now.count ≤ 20000 }
    ensures { IfOk result (λ text. text ≡ product_text product (schedule_of draft.now.seed draft.now.count)) }
{
    match product {
        Product::Schedule => spell(alloc, &draft.seed, draft.count),
        Product::Summary => {
            let schedule = make(alloc, &draft.seed, draft.count)?;
            summary_of_run(alloc, schedule)
        }
    }
}

/// The schedule of a seed and a count, or the summary of its run.
#[tactic(auto, unfolding(crate::specs::Answers::made_answer))]
fn made(alloc: Global, product: Product, draft: &Draft) -> Result<Reply, Memory>
    requires { draft.now.count ≤ 20000 }
    ensures answers { IfOk result (λ reply. reply ≡ made_answer product draft.now) }
    ensures conclusive { IfOk result (λ reply. reply.status ≡ 0) }
{
    let text = text_of(alloc, product, draft)?;
    Ok(Reply::whole(Status::OK, text))
}

/// Makes a schedule, and writes it or the summary of its run.
pub fn tell_made<K: Sink>(alloc: Global, product: Product, draft: &Draft, sink: &mut K) -> Status
    requires { draft.now.count ≤ 20000 }
    ensures told { Told (made_answer product draft.now) result.0 (K.held sink.old) (K.held sink.new) }
    ensures statuses { (result.0 ≡ 0) ⊎ ((result.0 ≡ 4) ⊎ (result.0 ≡ 5)) }
    ensures write_fault { result.0 ≡ 4 → Rose (K.faults sink.old) (K.faults sink.new) }
    ensures sink_faults { K.faults sink.old ≤ K.faults sink.new }
{
    match made(alloc, product, draft) {
        Ok(reply) => tell_reply(alloc, sink, reply),
        Err(Memory) => Status::MEMORY,
    }
}
