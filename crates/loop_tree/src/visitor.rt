//! Visitors of a tree's instances.
ghost use Rattle.std.specs.Prelude.{◌≡◌, ◌++◌, ◌∷◌, [], List, false, length, true};
ghost use Rattle.scop_syntax.specs.View.{instance_of};
ghost use Rattle.scop_syntax.specs.Walk.{Instance as PlainInstance};

use scop_syntax::Instance;

/// What a walk shows each instance to. A visitor stands for lists of instances: those that it may have seen so far.
pub trait Visitor {
    ghost stands: { Self → List PlainInstance → Type 0 };

    /// Sees one instance more.
    fn visit(&mut self, instance: Instance)
        ensures { (l : List PlainInstance) → stands self.old l → stands self.new (l ++ instance_of instance ∷ []) };

    /// Sees so many instances without looking at them, where it can. False where it can't: then it stays as it was.
    fn skip(&mut self, count: u64) -> bool
        ensures seen { result ≡ true → (l part : List PlainInstance) → stands self.old l → length part ≡ count
            → stands self.new (l ++ part) }
        ensures stays { result ≡ false → (l : List PlainInstance) → stands self.old l → stands self.new l };

    /// Takes whatever comes, unseen, where it can. False where it can't: then it stays as it was.
    fn pass_by(&mut self) -> bool
        ensures taken { result ≡ true → (l part : List PlainInstance) → stands self.old l → stands self.new (l ++ part) }
        ensures stays { result ≡ false → (l : List PlainInstance) → stands self.old l → stands self.new l };
}

/// Takes whatever comes, where it is unseen and the visitor can take it so.
#[inline]
pub(crate) fn passes_by<V: Visitor>(unseen: bool, visitor: &mut V) -> bool
    ensures taken { result ≡ true → (l part : List PlainInstance) → V.stands visitor.old l
        → V.stands visitor.new (l ++ part) }
    ensures stays { result ≡ false → (l : List PlainInstance) → V.stands visitor.old l → V.stands visitor.new l }
{
    if !unseen {
        return false;
    }
    visitor.pass_by()
}

/// Sees one instance without looking at it, where it is unseen and the visitor can see it so.
#[inline]
pub(crate) fn skips_one<V: Visitor>(unseen: bool, visitor: &mut V) -> bool
    ensures seen { result ≡ true → (l part : List PlainInstance) → V.stands visitor.old l → length part ≡ 1
        → V.stands visitor.new (l ++ part) }
    ensures stays { result ≡ false → (l : List PlainInstance) → V.stands visitor.old l → V.stands visitor.new l }
{
    if !unseen {
        return false;
    }
    visitor.skip(1)
}

/// Whether it can see instances without looking at them: a visitor that can't see none so can't see any, and how many
/// there are need not be counted for it.
#[inline]
pub(crate) fn can_skip<V: Visitor>(visitor: &mut V) -> bool
    ensures { (l : List PlainInstance) → V.stands visitor.old l → V.stands visitor.new l }
{
    if visitor.skip(0) {
        return true;
    }
    false
}
