//! Laws of the definitions. Each function is its contract alone.
ghost use Rattle.std.specs.Prelude.{◌≡◌, ◌≤◌, ◌↔◌, ◌⊎◌, ℕ, ◌*◌, List as Listed, [], ◌∷◌, codes, Option, None, Some, slice_get};
ghost use Rattle.bl_base.specs.Quantity.{limit_of};
ghost use Rattle.bl_base.specs.declared.quantity.Quantity.TheVariants as quantity;
ghost use Rattle.bl_outside.specs.Shelf.{Files};
ghost use Rattle.bl_wasm.specs.{Linked.IsLinked, declared.linked.Tree.Tree, Exports.value_named};
ghost use Rattle.bl_lower.specs.Trees.{low_tree, step_bound};
ghost use Rattle.bl_program.specs.declared.definitions.ProgramParts.{ProgramParts as Program};
ghost use Rattle.bl_format.specs.Image.{Image};
ghost use Rattle.bl_counts.specs.RecordedRuns.{AreAdded, Recorded, all_executed};
ghost use Rattle.bl_counts.specs.RunCounts.{bare};
ghost use Rattle.bl_report.specs.Verdicts.{safe_line};
ghost use Rattle.bl_build.specs.BuildStages.{AreCompiled, Built, command_count};
ghost use Rattle.bl_build.specs.{EntryStages.function_named, LoadStages.AreShort, InterfaceStages.IsFileOf, InterfaceStages.Parted};
ghost use Rattle.bl_build.specs.WeightStages.{AreBuilt, IsWeighed, IsWeighedBy};
ghost use Rattle.bl_job.specs.{Causes.Causes, Causes.NoneRose, Refusals.Refusal, Worlds.World, declared.status.Status.Status};
ghost use Rattle.bl_app.specs.Commands.{HasOnePlan, job_of, row_of, work_of};
ghost use Rattle.bl_app.specs.CountedHardening.{AreExecutedLeast, AreTaken, IsImageOf};
ghost use Rattle.bl_app.specs.{RunJob.RunDoes, HardenJob.HardenDoes, HardenJob.harden_job, InterpJob.InterpDoes, PartJob.PartMeans};
ghost use Rattle.bl_build.specs.HardenStage.{Hardened, IsHardened, IsYes};
ghost use Rattle.bl_apart.specs.LinkedApart.{HasOrigin, IsOwn};
ghost use Rattle.bl_app.specs.WorkedCalls.{AreMet, worked_calls};
ghost use Rattle.bl_app.specs.JoinedModules.{AreKept, AreLoaded, Calls, EndsAsLinked, KeepTo, Trees};
ghost use Rattle.bl_iface.specs.declared.iface.Iface.{Iface};
ghost use Rattle.bl_job.specs.Jobs.{AreRead, FirstRefusal, IsLawful, IsTotal, Plan};
ghost use Rattle.bl_app.specs.{PredictJob.IsFollowed, PredictJob.predict_job, VerifyJob.IsVerified, VerifyJob.VerifyDoes};
ghost use Rattle.bl_words.specs.Requests.{AreInRange, AreDriveStepsInRange, GenRequest, HardenRequest, InterpRequest, IsGenInRange, PartRequest, PredictRequest, Request, RunRequest, gen};
ghost use Rattle.bl_job.specs.declared.status.Status.TheVariants as status;

/// The job of each request: its contents have at most one refusal, and nothing is done where one stands; all that may be done has
/// one status, and keeps the files that are named, or none.
#[tactic(auto, using(crate::proofs::CommandLemmas::laws_of))]
pub fn jobs_are_lawful()
    ensures { (request : Request) → IsLawful (job_of request) }
{}

/// The job of each request: of contents that are there something is refused, or something may be done. It can't be that neither is so.
/// Of a request with modules this is said where they are named apart, as they are in each that words ask for; of those whose program
/// is written to an image where the words are texts, as the words of each call are; and of a module that is made where its size is in range.
#[tactic(auto, using(crate::proofs::CommandLemmas::total_of))]
pub fn jobs_are_total()
    ensures { (request : Request) → (row_of request).Given → IsTotal (job_of request) }
{}

/// At most one refusal of a request is the first.
pub fn one_refusal()
    ensures { (files : Files) (request : Request) (a b : Refusal) → FirstRefusal (job_of request) (Some files) a → FirstRefusal (job_of request) (Some files) b → a ≡ b }
{}

/// A request that can be carried out is not refused.
pub fn what_can_be_done_is_not_refused()
    ensures { (files : Files) (request : Request) (refusal : Refusal) (contents : Listed (Listed ℕ)) (plan : Plan)
        → AreRead (Some files) (job_of request).reads contents → (job_of request).Does contents plan → FirstRefusal (job_of request) (Some files) refusal → ⊥ }
{}

/// A module that is made of a number and a size in range is never refused.
pub fn made_modules_are_never_refused()
    ensures { (request : GenRequest) (files : Option Files) (refusal : Refusal) → IsGenInRange request → FirstRefusal (job_of (gen request)) files refusal → ⊥ }
{}

/// What is kept and printed is one thing, with one status, for each request that has one plan.
#[tactic(auto, using(crate::proofs::CommandLemmas::one_plan))]
pub fn one_run()
    ensures { (request : Request) → HasOnePlan request → (contents : Listed (Listed ℕ)) (p q : Plan) → (work_of request).Does contents p → (work_of request).Does contents q → p ≡ q }
{}

/// Two plans of `verify` on the same contents have one status, and one verdict by the rules of certificates and by the transient
/// rules; both have a yes by the label rules or both a no, and their last lines are one. With a yes they are one: only secret chains
/// can differ.
pub fn one_verification()
    ensures status { (contents : Listed (Listed ℕ)) (p q : Plan) → VerifyDoes contents p → VerifyDoes contents q → p.status ≡ q.status }
    ensures rules { (contents : Listed (Listed ℕ)) (p q : Plan) (h : VerifyDoes contents p) (k : VerifyDoes contents q) → h.plans.verdicts.rules ≡ k.plans.verdicts.rules }
    ensures flow { (contents : Listed (Listed ℕ)) (p q : Plan) (h : VerifyDoes contents p) (k : VerifyDoes contents q) → h.plans.verdicts.flow ≡ k.plans.verdicts.flow }
    ensures labels { (contents : Listed (Listed ℕ)) (p q : Plan) (h : VerifyDoes contents p) (k : VerifyDoes contents q)
        → IsYes h.plans.verdicts.labels ↔ IsYes k.plans.verdicts.labels }
    ensures safe { (contents : Listed (Listed ℕ)) (p q : Plan) (h : VerifyDoes contents p) (k : VerifyDoes contents q)
        → safe_line h.plans.verdicts.flow h.plans.verdicts.labels ≡ safe_line k.plans.verdicts.flow k.plans.verdicts.labels }
    ensures whole { (contents : Listed (Listed ℕ)) (p q : Plan) (h : VerifyDoes contents p) → VerifyDoes contents q → IsYes h.plans.verdicts.labels → p ≡ q }
{}

/// Two plans of `harden` on the same contents have one program, whose counts they tell, and one image, which is the second file that
/// they keep; both have a yes by the label rules or both a no. With one certificate and a yes they are one: only certificates and
/// secret chains can differ.
pub fn one_image()
    ensures program { (request : HardenRequest) (contents : Listed (Listed ℕ)) (p q : Plan) (h : HardenDoes request contents p)
        (k : HardenDoes request contents q) → h.plans.hardened.program ≡ k.plans.hardened.program }
    ensures image { (request : HardenRequest) (contents : Listed (Listed ℕ)) (p q : Plan) (h : HardenDoes request contents p)
        (k : HardenDoes request contents q) → h.plans.hardened.image ≡ k.plans.hardened.image }
    ensures verdict { (request : HardenRequest) (contents : Listed (Listed ℕ)) (p q : Plan) (h : HardenDoes request contents p)
        (k : HardenDoes request contents q) → IsYes h.plans.hardened.verdict ↔ IsYes k.plans.hardened.verdict }
    ensures kept { (request : HardenRequest) (contents : Listed (Listed ℕ)) (p q : Plan) → (harden_job request).Does contents p → (harden_job request).Does contents q
        → slice_get p.keeps 1 ≡ slice_get q.keeps 1 }
    ensures whole { (request : HardenRequest) (contents : Listed (Listed ℕ)) (p q : Plan) (h : HardenDoes request contents p)
        (k : HardenDoes request contents q) → h.plans.hardened.certificate ≡ k.plans.hardened.certificate → IsYes h.plans.hardened.verdict → p ≡ q }
{}

/// An image runs as the modules do that it was made of: where `interp` tells a return or a trap within its steps, `run` tells
/// the same of the image within k times as many, k being the most commands of one source step; and where `run` does, `interp`
/// does within the same number of steps. Weights by a count file don't show.
pub fn images_run_as_their_modules()
    ensures forward { (request : InterpRequest) (image_name start_name start : Listed ℕ) (contents : Listed (Listed ℕ)) (counts : Option (Listed ℕ)) (built : Built) (plan : Plan)
        → (compiled : AreBuilt request.modules contents counts built) → InterpDoes request (start ∷ contents) plan → (plan.status ≡ status.Spent → ⊥)
        → RunDoes (record { image = image_name; export = request.export; start = start_name; steps = step_bound compiled.tree * request.steps; counts = None }) (built.image ∷ start ∷ []) plan }
    ensures backward { (request : InterpRequest) (image_name start_name start : Listed ℕ) (contents : Listed (Listed ℕ)) (counts : Option (Listed ℕ)) (built : Built) (plan : Plan)
        → AreBuilt request.modules contents counts built
        → RunDoes (record { image = image_name; export = request.export; start = start_name; steps = request.steps; counts = None }) (built.image ∷ start ∷ []) plan → (plan.status ≡ status.Spent → ⊥)
        → InterpDoes request (start ∷ contents) plan }
{}

/// What is compiled of modules is what is built of them without a count file.
pub fn what_is_compiled_is_built()
    ensures { (words contents : Listed (Listed ℕ)) (built : Built) → AreCompiled words contents built ↔ AreBuilt words contents None built }
{}

/// Protects don't show in a run: `run` tells and counts the same of a program's image and of the image of the program with its protects. The
/// program is that of a linked tree, with the weights by a count file where there is one.
pub fn protects_do_not_show()
    ensures { (request : RunRequest) (tree : Tree) (counts : Option (Listed ℕ)) (built : Built) (hardened : Hardened) (start : Listed ℕ) (plan : Plan)
        → IsLinked tree → command_count tree ≤ limit_of quantity.Commands → IsWeighedBy counts (low_tree tree) built.program → Image built.program built.image
        → IsHardened built.program hardened
        → RunDoes request (built.image ∷ start ∷ []) plan ↔ RunDoes request (hardened.image ∷ start ∷ []) plan }
{}

/// Where the count file that modules are hardened by has the counts of runs together, of a program that is theirs but for marks and
/// weights, the protects pass the transient rules, and no other passing set of sites was executed less in these runs together, or as little and has
/// fewer sites.
pub fn protects_by_counts_are_executed_least()
    ensures { (tree : Tree) (bytes : Listed ℕ) (program other : Program) (runs : Listed Recorded) (hardened : Hardened)
        → IsLinked tree → command_count tree ≤ limit_of quantity.Commands → bare other ≡ bare (low_tree tree)
        → (weighed : IsWeighed bytes (low_tree tree) program) → AreAdded other runs weighed.counts → IsHardened program hardened
        → AreExecutedLeast tree (all_executed other runs) hardened.program }
{}

/// The images that `lower`, `harden` and `part` keep of modules are of the modules' program, but for marks and weights.
pub fn kept_images_are_of_the_program()
    ensures lowered { (built : Built) → Image built.program built.image → IsImageOf built built.image }
    ensures hardened { (built : Built) (hardened : Hardened) → IsHardened built.program hardened → IsImageOf built hardened.image }
    ensures parted { (request : PartRequest) (contents : Listed (Listed ℕ)) (parted : Parted) (plan : Plan) (means : PartMeans request contents parted plan)
        → IsImageOf means.built parted.image }
{}

/// The file that `run --counts` keeps of an image of modules' program, of whatever protects and weights, is taken by
/// `harden --counts` of the same modules: neither its length nor its counts are refused (the image of the program that they weigh may be too long), and the
/// protects are those that were executed least in that run.
pub fn kept_counts_are_taken()
    ensures { (run : RunRequest) (word image start : Listed ℕ) (told : Plan) (request : HardenRequest) (file : Listed ℕ) (modules : Listed (Listed ℕ))
        (counts : Option (Listed ℕ)) (built : Built) → AreInRange run.steps → run.counts ≡ Some word → request.counts ≡ Some file
        → AreShort request.modules modules → (is : AreBuilt request.modules modules counts built) → IsImageOf built image
        → RunDoes run (image ∷ start ∷ []) told → AreTaken run word image start told request modules is.tree }
{}

/// No status but that of want of memory can be the answer to all calls: where no count of faults rises, words that are no
/// request are answered by no other status, and a request never is by theirs.
pub fn no_status_answers_all()
    ensures without_request { (old new : World) (answer : Status) → Causes job_of None old new answer → NoneRose old new → (answer ≡ status.Usage) ⊎ (answer ≡ status.Memory) }
    ensures with_request { (request : Request) (old new : World) → Causes job_of (Some request) old new status.Usage → ⊥ }
{}

/// The trace file that `predict` keeps is no longer than is read, and `spec` of the same image, export and start file takes it to its end: each
/// directive is enabled, and it tells the same outcome, or that the machine hasn't ended where `predict` told that its steps were spent.
#[tactic(auto, using(crate::proofs::PredictLemmas::followed))]
pub fn kept_traces_run()
    ensures { (request : PredictRequest) → AreDriveStepsInRange request.steps → (image start : Listed ℕ) (plan : Plan)
        → (predict_job request).Does (image ∷ start ∷ []) plan → IsFollowed request image start plan }
{}

/// What `harden` keeps is what `verify` takes: the bytes of the image and of the certificate are never refused, `verify` of them has status 0, and all of its lines
/// say yes exactly where `harden` told that the program is constant-time. The image is no longer than is read; nothing is said of the certificate's length.
pub fn what_is_hardened_is_verified()
    ensures { (request : HardenRequest) (contents : Listed (Listed ℕ)) (plan : Plan) → (harden_job request).Does contents plan → IsVerified request plan }
{}

/// What `part` and `join` keep of modules that are hardened apart, under an interface each, ends as `interp` of the linked modules does, by name. The client's modules are those of a stub
/// and of its users; the library's are linked under the users' in place of the stub's. The users import of the stub nothing but functions of the interface, and
/// two names of the interface that stand for one function of the stub stand for one of the library. Then what a module of the library or of the users exports
/// under a name, but for a function of the stub that a user hands on, the joined image exports under it, and from each start both end alike, whichever of them
/// ends, with any protects. The joined image exports nothing else, but for functions of the stub's under names that the interface doesn't have.
pub fn joined_images_end_as_linked_modules()
    ensures ends { (calls : Calls) (iface : Iface) (trees : Trees) (own program : Program) → AreKept calls → IsFileOf calls.iface.bytes iface → AreLoaded calls trees
        → KeepTo calls iface trees → Image own calls.joined.bytes → bare program ≡ bare own
        → (name : Listed ℕ) (function : ℕ) → value_named name trees.whole.exports ≡ Some function → IsOwn trees.stub trees.client name → EndsAsLinked trees iface program name function }
    ensures nothing_else { (calls : Calls) (iface : Iface) (trees : Trees) (own program : Program) → AreKept calls → IsFileOf calls.iface.bytes iface → AreLoaded calls trees
        → KeepTo calls iface trees → Image own calls.joined.bytes → bare program ≡ bare own
        → (name : Listed ℕ) (number : ℕ) → function_named name program.exports ≡ Some number → HasOrigin iface trees.stub trees.whole name number }
{}

/// All that [`joined_images_end_as_linked_modules`] asks for can be so: a stub, a user and a library in files, an interface and three images are written out, of which all of it holds. The
/// user's function, which calls one of the stub that returns 0, returns the library's 7 without arguments: in the linked modules, and in the program of the joined image.
pub fn there_are_joined_images()
    ensures { AreMet worked_calls (codes "main/g") (7 ∷ []) }
{}
