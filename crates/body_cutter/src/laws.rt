//! Laws of batches.

ghost use Rattle.std.specs.Prelude.{◌≡◌, ◌++◌, Some};
ghost use Rattle.body_cutter.specs.declared.batch.Batch.{Batch as BatchGiven};
ghost use Rattle.body_cutter.specs.Sections.{Given};
ghost use Rattle.body_cutter.specs.Queues.{Queue as QueueGiven, bodies_in};
ghost use Rattle.body_cutter.specs.Cuttings.{Cutting, handed, Takes};

/// The bodies of the batches, joined, are the section's complete bodies, each once and in order (Core 5.5.13): what is handed
/// over has the bodies that are there and those to come, and a batch that is taken has the first of them.
pub fn batches_join_to_the_bodies()
    ensures handed { (q : QueueGiven) (g : Given) → bodies_in (handed q g).queue ≡ bodies_in q ++ g.bodies }
    ensures taken { (old new : Cutting) (b : BatchGiven) → Takes old (Some b) new → bodies_in old.queue ≡ b.bodies ++ bodies_in new.queue }
{}
