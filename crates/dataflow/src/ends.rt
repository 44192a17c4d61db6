//! The two ends of a candidate: which writes, and which is the access in question.
ghost use Rattle.std.specs.Prelude.{◌≡◌};
ghost use Rattle.dataflow.specs.Sources.{reader_end, writer_end};

use iteration_domains::{Dep, DepEnd};
use quast_joins::Way;

/// The end that writes: the source looking back, the target looking on.
pub fn writer_end(way: Way, dep: &Dep) -> DepEnd
    ensures { result ≡ writer_end way dep.now }
{
    match way {
        Way::Later => dep.source,
        Way::Earlier => dep.target,
    }
}

/// The end that is the access in question.
pub fn reader_end(way: Way, dep: &Dep) -> DepEnd
    ensures { result ≡ reader_end way dep.now }
{
    match way {
        Way::Later => dep.target,
        Way::Earlier => dep.source,
    }
}
