//! The run of one worker.
ghost use Rattle.std.specs.Prelude.{◌≡◌, [], false, true};
ghost use Rattle.tile_core.specs.Passes.{IsPass, plan_in, walk_in};
ghost use Rattle.tile_core.specs.declared.worker.Stage.TheVariants.{Ended, Holding, Idle, Working};

use crate::ahead::do_ahead;
use io_ports::Gate;
use std::sync::Wait;
use std::thread;
use tile_claims::claim;
use tile_core::{Pass, Words};
use wave_barrier::{finish, release, try_open, try_open_tile};

/// Does every instance of the tile that was opened. It takes no memory and waits for nobody.
pub fn do_tile(words: &Words, pass: &mut Pass, tile: u64)
    requires pass { IsPass words.now pass.old }
    requires stage { pass.old.worker.stage ≡ Working tile 0 }
    requires reads { pass.old.worker.reads.items ≡ [] }
    ensures pass { IsPass words.now pass.new }
    ensures stage { pass.new.worker.stage ≡ Working tile ((walk_in words.now).size tile) }
{
    loop {
        let count = do_ahead(words, pass);
        if count == 0 {
            return;
        }
    }
}

/// Releases each tile that waits for the one whose instances are done. It takes no memory and waits for nobody.
pub fn release_all(words: &Words, pass: &mut Pass, tile: u64)
    requires pass { IsPass words.now pass.old }
    requires stage { pass.old.worker.stage ≡ Working tile ((walk_in words.now).size tile) }
    ensures pass { IsPass words.now pass.new }
    ensures stage { pass.new.worker.stage ≡ Working tile ((plan_in words.now).size tile) }
{
    for _ in 0..words.plan.successors(tile) {
        release(words, pass);
    }
}

/// Whether the tile that is held is opened: by its counter, or by waves. It takes no memory and waits for nobody.
pub fn is_opened(words: &Words, pass: &mut Pass, tile: u64) -> bool
    requires pass { IsPass words.now pass.old }
    requires stage { pass.old.worker.stage ≡ Holding tile }
    ensures pass { IsPass words.now pass.new }
    ensures opened { result ≡ true → pass.new.worker.stage ≡ Working tile 0 }
    ensures reads { result ≡ true → pass.new.worker.reads.items ≡ [] }
    ensures held { result ≡ false → pass.new.worker.stage ≡ Holding tile }
{
    match words.plan.edges {
        Some(_) => try_open_tile(words, pass).is_ok(),
        None => try_open(words, pass).is_ok(),
    }
}

/// Tries until the tile that is held is opened.
fn open_held<W: Wait>(rt: &W, words: &Words, pass: &mut Pass, tile: u64)
    requires pass { IsPass words.now pass.old }
    requires stage { pass.old.worker.stage ≡ Holding tile }
    ensures pass { IsPass words.now pass.new }
    ensures stage { pass.new.worker.stage ≡ Working tile 0 }
    ensures reads { pass.new.worker.reads.items ≡ [] }
{
    for _ in rt.forever() {
        if is_opened(words, pass, tile) {
            return;
        }
        thread::yield_now();
    }
    unreachable!()
}

/// Claims tiles and does them until the claims run out. The gate is entered before the instances of a tile, and left
/// where it is finished. It takes no memory.
pub fn work<W: Wait, G: Gate>(rt: &W, words: &Words, pass: &mut Pass, gate: &G)
    requires pass { IsPass words.now pass.old }
    requires idle { pass.old.worker.stage ≡ Idle }
    ensures pass { IsPass words.now pass.new }
    ensures ended { pass.new.worker.stage ≡ Ended }
{
    for _ in rt.forever() {
        match claim(words, pass) {
            Some(tile) => {
                open_held(rt, words, pass, tile);
                gate.enter(tile);
                do_tile(words, pass, tile);
                release_all(words, pass, tile);
                finish(words, pass);
                gate.leave(tile);
            }
            None => return,
        }
    }
    unreachable!()
}
