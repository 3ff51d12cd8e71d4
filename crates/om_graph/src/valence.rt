//! How many slots the vertices of a model have.
ghost use Rattle.std.specs.Prelude.{◌≡◌, ℕ, ◌<◌, false, length};
ghost use Rattle.om_graph.specs.Reactions.{reaction_in};

use crate::reaction::Reaction;

/// Whether some vertex has so many slots.
pub(crate) fn has_valence(reaction: &Reaction<'_>, slots: usize) -> bool
    ensures { result ≡ false → (v : ℕ) → v < (reaction_in reaction.now).scattering.theory.vertices → length ((reaction_in reaction.now).scattering.theory.slots v) ≡ slots → ⊥ }
{
    for vertex in 0..reaction.vertices() {
        if reaction.slots(vertex).len() == slots {
            return true;
        }
    }
    false
}
