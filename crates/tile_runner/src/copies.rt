//! The next instance of a pass where each has a copy of its own: it loads the copies of its sources, or the arrays'
//! cells where it has none, and stores its own copy.
ghost use Rattle.std.specs.Prelude.{◌≡◌, ◌+◌, ◌<◌, ◌≤◌, [], ℕ, length, true};
ghost use Rattle.tile_core.specs.Passes.{IsPass, walk_in};
ghost use Rattle.tile_core.specs.Plans.{is_expanded, place_of};
ghost use Rattle.tile_core.specs.Workers.{HasNoneDue, IsDue};
ghost use Rattle.tile_core.specs.declared.worker.Stage.TheVariants.{Working};

use array_words::{load, store};
use scop_syntax::Instance;
use tile_core::{Pass, Words};

/// Loads what the next instance of a pass reads, in turn.
fn load_all(words: &Words, pass: &mut Pass, instance: &Instance)
    requires pass { IsPass words.now pass.old }
    requires due { IsDue words.now.plan pass.old.worker.stage instance.now }
    requires reads { pass.old.worker.reads.items ≡ [] }
    ensures pass { IsPass words.now pass.new }
    ensures stage { pass.new.worker.stage ≡ pass.old.worker.stage }
    ensures reads { length pass.new.worker.reads.items
        ≡ length ((walk_in words.now).read (place_of words.now.plan instance.now)) }
{
    let (tile, done) = pass.worker.at();
    for read in 0..words.plan.reads(instance) {
        let cell = words.plan.cell_read(instance, tile, done, read);
        load(words, pass, cell);
    }
}

/// Does the next instance of a pass, where one is due, and goes on behind it; tells how many instances that are: one,
/// or none. Nothing is added where each has a copy of its own.
pub(crate) fn do_copied(words: &Words, pass: &mut Pass) -> usize
    requires pass { IsPass words.now pass.old }
    requires copies { is_expanded words.now.plan ≡ true }
    requires reads { pass.old.worker.reads.items ≡ [] }
    ensures none { result ≡ 0 → HasNoneDue words.now.plan pass.old.worker.stage }
    ensures within { (t k : ℕ) → pass.old.worker.stage ≡ Working t k → 0 < result
        → k + result ≤ (walk_in words.now).size t }
    ensures stage { (t k : ℕ) → pass.old.worker.stage ≡ Working t k
        → pass.new.worker.stage ≡ Working t (k + result) }
    ensures reads { pass.new.worker.reads.items ≡ [] }
    ensures pass { IsPass words.now pass.new }
{
    let Some(due) = pass.worker.due(&words.plan) else {
        return 0;
    };
    let instance = *due;
    load_all(words, pass, &instance);
    let (tile, done) = pass.worker.at();
    let cell = words.plan.cell_written(&instance, tile, done);
    let value = pass.worker.value(&words.plan, &instance);
    store(words, pass, cell, value);
    1
}
