//! One thing more, up to a limit.
ghost use Rattle.std.specs.Prelude.{[], ◌∷◌};
ghost use Rattle.om_graph.specs.Loops.{Adds};

use crate::BuildFault;

/// Puts one more behind what was found, up to the limit.
pub(crate) fn add<T: Drop>(found: &mut Vec<T>, limit: usize, one: T) -> Result<(), BuildFault>
    ensures { Adds limit found.old.items (one ∷ []) found.new.items result }
{
    if found.len() >= limit {
        return Err(BuildFault::TooLarge);
    }
    match found.push(one) {
        Ok(()) => Ok(()),
        Err(_) => Err(BuildFault::Memory),
    }
}
