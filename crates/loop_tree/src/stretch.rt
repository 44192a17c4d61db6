//! Stretches of a tree's visits: the instances of a loop with one instance in it and nothing else. Each has the same
//! steps more in its turns than the one before it, since the forms of turns are linear in the loop's value.
ghost use Rattle.std.specs.Prelude.{◌≡◌, ◌+ℤ◌, ◌<◌, ◌↔◌, ◌∷◌, All, FitsSigned, IsTrue, get_or, pos, take};
ghost use Rattle.std.specs.Int.{w64};
ghost use Rattle.scop_syntax.specs.View.{instance_of};
ghost use Rattle.whole_numbers.specs.Lists.{sums};
ghost use Rattle.loop_tree.specs.Conditions.{IsHeld};
ghost use Rattle.loop_tree.specs.Stretches.{left_of};

use scop_syntax::{Instance, MOST_LOOPS};

/// The instance in front of a stretch, what each instance has more in its turns than the one before it, and how many
/// are left.
#[derive(Clone, Copy)]
pub struct Stretch {
    pub before: Instance,
    pub steps: [i64; MOST_LOOPS],
    pub left: u64,
}

/// The sum of the entries at a place, where a turn has room for it; another number elsewhere.
#[inline]
fn sum_at(xs: &[i64; MOST_LOOPS], ys: &[i64; MOST_LOOPS], place: usize) -> i64
    requires { place < 5 }
    ensures { FitsSigned w64 (get_or xs.now place (pos 0) +ℤ get_or ys.now place (pos 0))
        → result ≡ get_or xs.now place (pos 0) +ℤ get_or ys.now place (pos 0) }
{
    xs[place].wrapping_add(ys[place])
}

/// The instance whose turns are more by these steps. The entries behind its turns are of no account, so each sum may
/// wrap.
#[inline]
fn stepped(instance: &Instance, steps: &[i64; MOST_LOOPS]) -> Instance
    requires { All (FitsSigned w64) (sums (instance_of instance.now).turns (take instance.now.loops steps.now)) }
    ensures instance { instance_of result ≡ record {
      number = instance.now.statement;
      turns = sums (instance_of instance.now).turns (take instance.now.loops steps.now);
    } }
    ensures loops { result.loops ≡ instance.now.loops }
{
    Instance {
        statement: instance.statement,
        loops: instance.loops,
        turns: [
            sum_at(&instance.turns, steps, 0),
            sum_at(&instance.turns, steps, 1),
            sum_at(&instance.turns, steps, 2),
            sum_at(&instance.turns, steps, 3),
            sum_at(&instance.turns, steps, 4),
        ],
    }
}

/// Whether two instances are one.
#[inline]
fn are_one(left: &Instance, right: &Instance) -> bool
    ensures one { IsTrue result ↔ (instance_of left.now ≡ instance_of right.now) }
    ensures loops { IsTrue result → left.now.loops ≡ right.now.loops }
{
    if left.statement == right.statement {
        left.turns() == right.turns()
    } else {
        false
    }
}

impl Stretch {
    /// One with nothing left.
    pub(crate) fn empty() -> Stretch
        ensures { result.left ≡ 0 }
    {
        Stretch {
            before: Instance::of(0, &[]),
            steps: [0; MOST_LOOPS],
            left: 0,
        }
    }

    /// Whether this is the instance in front of it.
    #[inline]
    pub fn follows(&self, instance: &Instance) -> bool
        ensures one { IsTrue result ↔ (instance_of instance.now ≡ instance_of self.now.before) }
        ensures loops { IsTrue result → instance.now.loops ≡ self.now.before.loops }
    {
        are_one(instance, &self.before)
    }

    /// Goes on by one instance, whose turns have room.
    #[inline]
    pub(crate) fn step(&mut self) -> Instance
        requires some { 0 < self.old.left }
        requires fits { All (FitsSigned w64)
            (sums (instance_of self.old.before).turns (take self.old.before.loops self.old.steps)) }
        ensures { left_of self.old ≡ instance_of result ∷ left_of self.new }
    {
        self.before = stepped(&self.before, &self.steps);
        self.left -= 1;
        self.before
    }

    /// Takes the first instance that is left.
    #[inline]
    pub fn next(&mut self) -> Instance
        requires some { 0 < self.old.left }
        requires held { All IsHeld (left_of self.old) }
        ensures { left_of self.old ≡ instance_of result ∷ left_of self.new }
    {
        self.step()
    }
}
