//! How large a model file may be, beside the limits of a model.

/// The most rows of parameters.
pub const MOST_PARAMETERS: usize = 256;

/// The most fields of a vertex.
pub const MOST_FIELDS: usize = 4;

/// The most factors of a vertex.
pub const MOST_FACTORS: usize = 3;
