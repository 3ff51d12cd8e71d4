//! Laws of models, and of the words in which they are written.
ghost use Rattle.std.specs.Prelude.{◌≡◌, ℕ};
ghost use Rattle.om_model.specs.Model.{theory_of};
ghost use Rattle.om_model.specs.declared.model.Model.{Model as ModelOf};
ghost use Rattle.om_model.specs.FeynmanRules.{Table};
ghost use Rattle.om_model.specs.Entries.{feynman_rules};
ghost use Rattle.om_model.specs.ScalarRules.{IsScalar, HasNoMoreFactors, scalar_rules};
ghost use Rattle.om_model.specs.Symmetry.{ExchangeSymmetry};
ghost use Rattle.om_model.specs.TwoSided.{ModelsAreTwoSided};
ghost use Rattle.om_model.specs.Words.{WordsAreRead};
ghost use Rattle.om_model.specs.Readings.{VerticesHaveReadings};
ghost use Rattle.om_model.specs.LegSetText.{LegSetsAreRead};
ghost use Rattle.om_model.specs.FieldNames.{FieldNamesAreRead};
ghost use Rattle.om_model.specs.WellFormed.{AcceptedAreWellFormed};
ghost use Rattle.om_model.specs.ModelLines.{WellFormedHaveLines};

use om_ring::Ring;

/// The antifield of the antifield is the field.
pub fn anti_of_anti()
    ensures { (m : ModelOf) (f : ℕ) → (theory_of m).anti ((theory_of m).anti f) ≡ f }
{}

/// A model of scalars alone has the rules of scalars.
pub fn scalars_have_scalar_rules<R: Ring>(ring: &R)
    ensures { (m : ModelOf) (t : Table R.E) → IsScalar m → HasNoMoreFactors m t → feynman_rules (R.ops ring.now) m t ≡ scalar_rules (R.ops ring.now) t }
{
    let _ring = ring;
}

/// What enters two slots with equal fields of a vertex of an accepted model may change places: the entry of each colour choice
/// is then the entry of the choice that the exchange makes of it.
pub fn exchange_symmetry<R: Ring>(ring: &R)
    ensures { ExchangeSymmetry (R.ops ring.now) }
{
    let _ring = ring;
}

/// The Feynman rules of a well-formed model give the same for an edge from either side, where the momenta that enter its ends are
/// opposite.
pub fn models_are_two_sided<R: Ring>(ring: &R)
    ensures { ModelsAreTwoSided (R.ops ring.now) }
{
    let _ring = ring;
}

/// A model that is accepted over any ring is well-formed.
pub fn accepted_are_well_formed<R: Ring>(ring: &R)
    ensures { AcceptedAreWellFormed (R.ops ring.now) }
{
    let _ring = ring;
}

/// The slots of a well-formed model take fields of it, its fermion lines go on over edges and through slots 1 and 2 of vertices,
/// and each colour choice sends on the lines that arrive at its vertex.
pub fn well_formed_have_lines()
    ensures { WellFormedHaveLines }
{}

/// A word means a structure, a spin or a colour exactly where it is the word of it.
pub fn words_are_read()
    ensures { WordsAreRead }
{}

/// A name means only a field that has it, and in a well-formed model the name of a field means the field.
pub fn field_names_are_read()
    ensures { FieldNamesAreRead }
{}

/// A set that has legs is read from its text, and a text that is read as a set is the text of it.
pub fn leg_sets_are_read()
    ensures { LegSetsAreRead }
{}

/// A vertex of a well-formed model reads each of its slots once, by each of its colour choices.
pub fn vertices_have_readings()
    ensures { VerticesHaveReadings }
{}
