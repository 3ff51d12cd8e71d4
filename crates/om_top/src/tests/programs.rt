//! The texts of programs.

/// Four real scalars, in version 1.
pub(crate) const SCALARS: &str =
    "omega 1\nmodel phi3\nparticle phi phi scalar 0 0 1 1\nvertex sss 1 phi phi phi : 1\nleg phi\nleg phi\nleg phi\nleg phi\nflow -\nden 2+3 phi\nden 2+4 phi\nden 3+4 phi\nload 1\nload 2\nload 3\nload 4\nfuse 5 + 1 0 2 3\nprop 5 1\nfuse 6 + 1 0 2 4\nprop 6 2\nfuse 7 + 1 0 3 4\nprop 7 3\nkey 1 + 1 0 1 2 7\nkey 1 + 1 0 1 5 4\nkey 1 + 1 0 1 6 3\nend\n";

/// The same in version 2.
pub(crate) const SCALARS_IN_SLOTS: &str =
    "omega 2\nmodel phi3\nparticle phi phi scalar 0 0 1 1\nvertex sss 1 phi phi phi : 1\nleg phi\nleg phi\nleg phi\nleg phi\nflow -\nden 2+3 phi\nden 2+4 phi\nden 3+4 phi\nslots 7\nload 1 1\nload 2 2\nload 3 3\nload 4 4\nfuse 5 + 1 0 2 3\nprop 5 1\nfuse 6 + 1 0 2 4\nprop 6 2\nfuse 7 + 1 0 3 4\nprop 7 3\nkey 1 + 1 0 1 2 7\nkey 1 + 1 0 1 5 4\nkey 1 + 1 0 1 6 3\nend\n";

/// Two electrons to two muons, in version 1.
pub(crate) const CURRENTS: &str =
    "omega 1\nmodel qed\nparticle e- e+ dirac 0 0 1 1\nparticle mu- mu+ dirac 0 0 1 1\nparticle A A vector 0 0 1 1\nvertex ffv 1 e+ e- A : 1 0\nvertex ffv 1 mu+ mu- A : 1 0\nleg e-\nleg e+\nleg mu+\nleg mu-\nflow -\nden 3+4 A\nload 1\nload 2\nload 3\nload 4\nfuse 5 + 2 0 3 4\nprop 5 1\nkey 1 - 1 0 1 2 5\nend\n";

/// The same in version 2.
pub(crate) const CURRENTS_IN_SLOTS: &str =
    "omega 2\nmodel qed\nparticle e- e+ dirac 0 0 1 1\nparticle mu- mu+ dirac 0 0 1 1\nparticle A A vector 0 0 1 1\nvertex ffv 1 e+ e- A : 1 0\nvertex ffv 1 mu+ mu- A : 1 0\nleg e-\nleg e+\nleg mu+\nleg mu-\nflow -\nden 3+4 A\nslots 5\nload 1 1\nload 2 2\nload 3 3\nload 4 4\nfuse 5 + 2 0 3 4\nprop 5 1\nkey 1 - 1 0 1 2 5\nend\n";

/// Four scalars without a vertex among them.
pub(crate) const NO_FLOW: &str =
    "omega 2\nmodel phi3\nparticle phi phi scalar 0 0 1 1\nleg phi\nleg phi\nleg phi\nleg phi\nslots 0\nend\n";
