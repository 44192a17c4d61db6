//! What a search is over, and how far it has come.
ghost use Rattle.std.specs.Prelude.{◌≤◌, ◌++◌, All, map};
ghost use Rattle.schedule_rows.specs.Outcomes.{state};
ghost use Rattle.schedule_rows.specs.Schedule.{block_of, marked_of};
ghost use Rattle.pluto_systems.specs.Posing.{dep_of};
ghost use Rattle.pluto_search.specs.steps.Good.{IsGood};

use iteration_domains::Dep;
use null_space::Rows;
use pluto_systems::Ruled;
use schedule_rows::{Block, Marked};

/// So many parameters, how many loops stand round each statement, and how many moves each question may make.
#[derive(Drop)]
pub struct Search<'a> {
    pub parameters: usize,
    pub loops: &'a [usize],
    pub budget: u64,
    ghost few: { parameters ≤ 4 },
    ghost small: { All (λ l. l ≤ 5) loops.now },
}

/// Of a search the blocks that are done, the rows of the open band, and the dependences that remain: first those whose
/// rows by Farkas's lemma are made, then the others. Of each statement the kernel vectors of all its rows.
#[derive(Drop)]
pub struct Progress<'a> {
    pub search: &'a Search<'a>,
    pub closed: Vec<Block>,
    pub rows: Vec<Marked>,
    pub ruled: Vec<Ruled>,
    pub bare: Vec<Dep>,
    pub vectors: Vec<Rows>,
    ghost good: { IsGood search.now.parameters search.now.loops.now
        (state (map block_of closed.items) (map marked_of rows.items) (map dep_of ruled.items ++ bare.items))
        (map (λ vs. map (λ v. v.items) vs.items) vectors.items) },
}

/// What comes next.
#[derive(Drop)]
pub enum Step<'a> {
    Goes(Progress<'a>),
    Ends(Vec<Block>),
}
