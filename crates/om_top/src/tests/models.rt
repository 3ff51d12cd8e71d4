//! The files of the models of the tests.

/// One real scalar.
pub(crate) const PHI3: &str =
    "model = 'phi3'\n[[particle]]\nname = 'phi'\nanti = 'phi'\nspin = 'scalar'\n[[vertex]]\nfields = ['phi', 'phi', 'phi']\nstructure = 'sss'\nfactors = ['1']\n";

/// The same with a quartic vertex.
pub(crate) const PHI34: &str =
    "model = 'phi34'\n[[particle]]\nname = 'phi'\nanti = 'phi'\nspin = 'scalar'\n[[vertex]]\nfields = ['phi', 'phi', 'phi']\nstructure = 'sss'\nfactors = ['1']\n[[vertex]]\nfields = ['phi', 'phi', 'phi', 'phi']\nstructure = 'ssss'\nfactors = ['1']\n";

/// One real scalar of mass 1.
pub(crate) const PHI3M: &str =
    "model = 'phi3m'\n[[particle]]\nname = 'phi'\nanti = 'phi'\nspin = 'scalar'\nmass = '1'\n[[vertex]]\nfields = ['phi', 'phi', 'phi']\nstructure = 'sss'\nfactors = ['1']\n";

/// A complex scalar with a quartic vertex.
pub(crate) const CS: &str =
    "model = 'cs'\n[[particle]]\nname = 'a'\nanti = 'a~'\nspin = 'scalar'\n[[vertex]]\nfields = ['a', 'a', 'a~', 'a~']\nstructure = 'ssss'\nfactors = ['1']\n";

/// Electrons, muons and photons.
pub(crate) const QED: &str =
    "model = 'qed'\n[[particle]]\nname = 'e-'\nanti = 'e+'\nspin = 'dirac'\n[[particle]]\nname = 'mu-'\nanti = 'mu+'\nspin = 'dirac'\n[[particle]]\nname = 'A'\nanti = 'A'\nspin = 'vector'\n[[vertex]]\nfields = ['e+', 'e-', 'A']\nstructure = 'ffv'\nfactors = ['1', '0']\n[[vertex]]\nfields = ['mu+', 'mu-', 'A']\nstructure = 'ffv'\nfactors = ['1', '0']\n";

/// Two quarks with gluons.
pub(crate) const QCD: &str =
    "model = 'qcd'\n[[particle]]\nname = 'q'\nanti = 'q~'\nspin = 'dirac'\ncolour = 3\n[[particle]]\nname = 'Q'\nanti = 'Q~'\nspin = 'dirac'\ncolour = 3\n[[particle]]\nname = 'g'\nanti = 'g'\nspin = 'vector'\ncolour = 8\n[[particle]]\nname = 'gn'\nanti = 'gn'\nspin = 'vector'\nnorm = '-1/3'\n[[vertex]]\nfields = ['q~', 'q', 'g']\nstructure = 'ffv'\nfactors = ['1', '0']\n[[vertex]]\nfields = ['q~', 'q', 'gn']\nstructure = 'ffv'\nfactors = ['1', '0']\n[[vertex]]\nfields = ['Q~', 'Q', 'g']\nstructure = 'ffv'\nfactors = ['1', '0']\n[[vertex]]\nfields = ['Q~', 'Q', 'gn']\nstructure = 'ffv'\nfactors = ['1', '0']\n[[vertex]]\nfields = ['g', 'g', 'g']\nstructure = 'vvv'\nfactors = ['1']\n[[vertex]]\nfields = ['g', 'g', 'g', 'g']\nstructure = 'gluon4'\nfactors = ['1']\norder = 2\n";

/// A fermion of mass 1 with a scalar.
pub(crate) const YUK: &str =
    "model = 'yuk'\n[[particle]]\nname = 'f'\nanti = 'f~'\nspin = 'dirac'\nmass = '1'\n[[particle]]\nname = 's'\nanti = 's'\nspin = 'scalar'\n[[vertex]]\nfields = ['f~', 'f', 's']\nstructure = 'ffs'\nfactors = ['1', '0']\n";

/// Two complex scalars that exchange a vector of mass 1.
pub(crate) const SZ: &str =
    "model = 'sz'\n[[particle]]\nname = 'a'\nanti = 'a~'\nspin = 'scalar'\n[[particle]]\nname = 'b'\nanti = 'b~'\nspin = 'scalar'\n[[particle]]\nname = 'Z'\nanti = 'Z'\nspin = 'vector'\nmass = '1'\n[[vertex]]\nfields = ['Z', 'a~', 'a']\nstructure = 'vss'\nfactors = ['1']\n[[vertex]]\nfields = ['Z', 'b~', 'b']\nstructure = 'vss'\nfactors = ['1']\n";

/// phi3 with a mass, without the quotation mark behind the mass.
pub(crate) const MASSIVE: &str =
    "model = \"phi3m\"\n[[vertex]]\nfields = [\"phi\", \"phi\", \"phi\"]\nstructure = \"sss\"\nfactors = [\"1\"]\n[[particle]]\nname = \"phi\"\nanti = \"phi\"\nspin = \"scalar\"\nmass = \"";

pub(crate) const SPIM: &str =
    "model = \"phi3\"\n[[particle]]\nname = \"phi\"\nanti = \"phi\"\nspim = \"scalar\"\n[[vertex]]\nfields = [\"phi\", \"phi\", \"phi\"]\nstructure = \"sss\"\nfactors = [\"1\"]\n";

pub(crate) const VSS: &str =
    "model = \"vss\"\n[[particle]]\nname = \"V\"\nanti = \"V\"\nspin = \"vector\"\n[[particle]]\nname = \"s\"\nanti = \"s\"\nspin = \"scalar\"\n[[vertex]]\nfields = [\"V\", \"s\", \"s\"]\nstructure = \"vss\"\nfactors = [\"1\"]\n";
