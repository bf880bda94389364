//! What the words of a call ask for.
use bl_base::{List, Role};

/// What the words of a call ask for.
///
/// One more command is one more variant here, with its words; its name in `command_line`; its arm in `asked_by` of `read`, with
/// the function behind it that tests the command's parts. In the definitions: a record of the request, a variant of `Request`,
/// what it asks for and its row in `commands` (Requests.antt), and `request_in` (Words.antt). In the lemmas: a field of
/// `rows_keep` (WordsLemmas.antt). One with modules, with files that must differ, or with a count file stands in
/// `modules_in`, `are_files_unlike` or `with_counts` too, of `read` and of Requests.antt.
#[derive(Drop)]
pub enum Request<'a> {
    /// To write the image and the certificate of modules.
    Harden(HardenWords<'a>),
    /// To write the image of modules.
    Lower(LowerWords<'a>),
    /// To run an exported function of modules.
    Interp(InterpWords<'a>),
    /// To run an exported function of an image.
    Run(RunWords<'a>),
    /// To take directives of a trace file on an exported function of an image.
    Spec(SpecWords<'a>),
    /// To check a certificate against an image.
    Verify(VerifyWords<'a>),
    /// To take the same directives from two start files, and compare what is observed.
    Twin(TwinWords<'a>),
    /// To say whether the program is safe where stores are forwarded, take the same directives from two start files there, and compare
    /// what is observed.
    Forward(TwinWords<'a>),
    /// To drive an exported function of an image by a predictor, and write the trace file of the directives that it chooses.
    Predict(PredictWords<'a>),
    /// To write the image of modules that are hardened on one side of an interface.
    Part(PartWords<'a>),
    /// To write the image of a client and a library that are joined.
    Join(JoinWords<'a>),
    /// To make a module from a number, and harden it.
    Gen(GenWords),
}

/// The words of a `harden`.
#[derive(Drop)]
pub struct HardenWords<'a> {
    /// The file of the image, which is written.
    pub image: &'a str,
    /// The file of the certificate, which is written; another word than the image's.
    pub certificate: &'a str,
    /// The files of the modules, which are read: at least one, and no two modules have one name.
    pub modules: List<&'a str>,
    /// The count file, which is read, where one is named; another word than the image's and the certificate's, and not empty.
    pub counts: Option<&'a str>,
}

/// The words of a `lower`.
#[derive(Drop)]
pub struct LowerWords<'a> {
    /// The file of the image, which is written.
    pub image: &'a str,
    /// The files of the modules, which are read: at least one, and no two modules have one name.
    pub modules: List<&'a str>,
}

/// The words of an `interp`.
#[derive(Drop)]
pub struct InterpWords<'a> {
    /// The name of the exported function that is entered.
    pub export: &'a str,
    /// The start file, which is read.
    pub start: &'a str,
    /// The files of the modules, which are read: at least one, and no two modules have one name.
    pub modules: List<&'a str>,
    /// The most steps that are made, from 1 to 4,294,967,295.
    pub steps: u64,
}

/// The words of a `run`.
#[derive(Clone, Copy)]
pub struct RunWords<'a> {
    /// The file of the image, which is read.
    pub image: &'a str,
    /// The name of the exported function that is entered.
    pub export: &'a str,
    /// The start file, which is read.
    pub start: &'a str,
    /// The most steps that are made, from 1 to 4,294,967,295.
    pub steps: u64,
    /// The count file, which is written, where one is named; another word than the image's, and not empty.
    pub counts: Option<&'a str>,
}

/// The words of a `spec`.
#[derive(Clone, Copy)]
pub struct SpecWords<'a> {
    /// The file of the image, which is read.
    pub image: &'a str,
    /// The name of the exported function that is entered.
    pub export: &'a str,
    /// The trace file, which is read.
    pub trace: &'a str,
    /// The start file, which is read.
    pub start: &'a str,
}

/// The words of a `verify`.
#[derive(Clone, Copy)]
pub struct VerifyWords<'a> {
    /// The file of the image, which is read.
    pub image: &'a str,
    /// The file of the certificate, which is read; another word than the image's.
    pub certificate: &'a str,
}

/// The words of a `twin` or of a `forward`.
#[derive(Clone, Copy)]
pub struct TwinWords<'a> {
    /// The file of the image, which is read.
    pub image: &'a str,
    /// The name of the exported function that is entered.
    pub export: &'a str,
    /// The trace file, which is read.
    pub trace: &'a str,
    /// The start file of the first run, which is read.
    pub start: &'a str,
    /// The start file of the other run, which is read.
    pub other_start: &'a str,
}

/// The words of a `predict`.
#[derive(Clone, Copy)]
pub struct PredictWords<'a> {
    /// The file of the image, which is read.
    pub image: &'a str,
    /// The name of the exported function that is entered.
    pub export: &'a str,
    /// The trace file, which is written; another word than the image's and the start file's.
    pub trace: &'a str,
    /// The start file, which is read.
    pub start: &'a str,
    /// The most steps that are taken, from 1 to as many as a trace file may have lines.
    pub steps: u64,
}

/// The words of a `part`.
#[derive(Drop)]
pub struct PartWords<'a> {
    /// The side of the interface on which the modules stand.
    pub role: Role,
    /// The file of the image, which is written; another word than the interface's.
    pub image: &'a str,
    /// The interface file, which is read.
    pub iface: &'a str,
    /// The files of the modules, which are read: at least one, and no two modules have one name.
    pub modules: List<&'a str>,
}

/// The words of a `join`.
#[derive(Clone, Copy)]
pub struct JoinWords<'a> {
    /// The file of the image, which is written; another word than each of the others.
    pub image: &'a str,
    /// The interface file, which is read.
    pub iface: &'a str,
    /// The file of the client's image, which is read.
    pub client: &'a str,
    /// The file of the library's image, which is read.
    pub library: &'a str,
}

/// The words of a `gen`.
#[derive(Clone, Copy)]
pub struct GenWords {
    /// The number that the module is made from.
    pub seed: u64,
    /// The size of the module, from 1 to the most functions of one.
    pub size: u32,
}
