//! What a pass has ahead at once, done by the steps of its seat and then passed by: instances along a stretch, or whole
//! rounds of a braid. Where each instance has a copy of its own it is one instance.
ghost use Rattle.std.specs.Prelude.{◌≡◌, ◌+◌, ◌<◌, ◌≤◌, [], ℕ, false};
ghost use Rattle.tile_core.specs.Passes.{IsPass, walk_in};
ghost use Rattle.tile_core.specs.Plans.{is_expanded};
ghost use Rattle.tile_core.specs.Stretches.{IsAhead, IsWoven};
ghost use Rattle.tile_core.specs.Workers.{HasNoneDue};
ghost use Rattle.tile_core.specs.declared.worker.Stage.TheVariants.{Working};

use crate::copies::do_copied;
use crate::rounds::do_rounds;
use crate::stretches::do_along;
use tile_core::{Pass, Words};

/// Does so many of the instances that a pass has ahead along a stretch.
#[inline]
fn do_stretch(words: &Words, pass: &mut Pass, count: usize)
    requires pass { IsPass words.now pass.old }
    requires plain { is_expanded words.now.plan ≡ false }
    requires ahead { IsAhead words.now.plan pass.old.worker.stage pass.old.worker.next pass.old.worker.spot.stretch
        count }
    requires reads { pass.old.worker.reads.items ≡ [] }
    ensures pass { IsPass words.now pass.new }
    ensures stage { (t k : ℕ) → pass.old.worker.stage ≡ Working t k
        → pass.new.worker.stage ≡ Working t (k + count) }
    ensures reads { pass.new.worker.reads.items ≡ [] }
{
    do_along(words, &mut pass.seat, &mut pass.worker, count);
    pass.worker.pass_by(&words.plan, count);
}

/// Does the next instance of a pass and so many whole rounds that it has ahead behind it; tells how many instances these
/// are.
fn do_woven(words: &Words, pass: &mut Pass, rounds: usize) -> usize
    requires pass { IsPass words.now pass.old }
    requires plain { is_expanded words.now.plan ≡ false }
    requires woven { IsWoven words.now.plan pass.old.worker.stage pass.old.worker.next pass.old.worker.spot rounds }
    requires reads { pass.old.worker.reads.items ≡ [] }
    ensures some { 0 < result }
    ensures within { (t k : ℕ) → pass.old.worker.stage ≡ Working t k → k + result ≤ (walk_in words.now).size t }
    ensures stage { (t k : ℕ) → pass.old.worker.stage ≡ Working t k
        → pass.new.worker.stage ≡ Working t (k + result) }
    ensures reads { pass.new.worker.reads.items ≡ [] }
    ensures pass { IsPass words.now pass.new }
{
    do_along(words, &mut pass.seat, &mut pass.worker, 1);
    do_rounds(words, &mut pass.seat, &mut pass.worker, rounds);
    pass.worker.pass_rounds(&words.plan, rounds)
}

/// Does what a pass has ahead at once: its next instance and the whole rounds behind it, or else all that go by the steps
/// of a stretch; where each has a copy of its own, the next instance alone. Tells how many instances these were: 0
/// where it has none due.
pub(crate) fn do_ahead(words: &Words, pass: &mut Pass) -> usize
    requires pass { IsPass words.now pass.old }
    requires reads { pass.old.worker.reads.items ≡ [] }
    ensures none { result ≡ 0 → HasNoneDue words.now.plan pass.old.worker.stage }
    ensures within { (t k : ℕ) → pass.old.worker.stage ≡ Working t k → 0 < result
        → k + result ≤ (walk_in words.now).size t }
    ensures stage { (t k : ℕ) → pass.old.worker.stage ≡ Working t k
        → pass.new.worker.stage ≡ Working t (k + result) }
    ensures reads { pass.new.worker.reads.items ≡ [] }
    ensures pass { IsPass words.now pass.new }
{
    if words.plan.expansion.is_some() {
        return do_copied(words, pass);
    }
    let rounds = pass.worker.rounds(&words.plan);
    if rounds > 0 {
        return do_woven(words, pass, rounds);
    }
    let count = pass.worker.ahead(&words.plan);
    if count == 0 {
        return 0;
    }
    do_stretch(words, pass, count);
    count
}
