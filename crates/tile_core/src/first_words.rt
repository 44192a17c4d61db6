//! The words of a run at first: the counts of claims and of finished tiles, both 0, and the cells behind them.
ghost use Rattle.std.specs.Prelude.{◌≡◌, ◌∷◌, IfErr, IfOk};

use std::alloc::{AllocError, Global};
use std::marker::Model;
use std::mem;

/// Both counts and the cells behind them; it is seen as the cells.
#[derive(Drop)]
pub struct FirstWords {
    words: Vec<u64>,
}

impl Model for FirstWords {
    ghost use Rattle.std.specs.Prelude.{◌≡◌, ◌∷◌, [], drop, take};
    ghost use Rattle.tile_core.specs.FirstWords.{FirstCells};

    ghost Value = { FirstCells };

    ghost view = { λ w. record { items = drop 2 w.words.items } };

    ghost invariant = { λ w. take 2 w.words.items ≡ 0 ∷ 0 ∷ [] };
}

impl FirstWords {
    /// Takes the cells over.
    ///
    /// # Errors
    /// `AllocError`; the cells are then as they were.
    pub fn of(alloc: Global, cells: &mut Vec<u64>) -> Result<FirstWords, AllocError>
        ensures cells { IfOk result (λ w. w.items ≡ cells.old.items) }
        ensures unchanged { IfErr result (λ _. cells.new.items ≡ cells.old.items) }
    {
        cells.reserve_exact(2)?;
        let mut words = mem::replace(cells, Vec::new(alloc));
        let Ok(()) = words.extend_from_slice(&[0, 0]) else {
            unreachable!()
        };
        words.rotate_right(2);
        Ok(FirstWords { words })
    }

    /// Both counts, then the cells.
    pub fn words(&self) -> &[u64]
        ensures { result.now ≡ 0 ∷ 0 ∷ self.now.items }
    {
        &self.words
    }

    /// The cells alone.
    pub fn into_cells(self) -> Vec<u64>
        ensures { result.items ≡ self.items }
    {
        let FirstWords { mut words } = self;
        words.rotate_left(2);
        words.truncate(words.len() - 2);
        words
    }
}
