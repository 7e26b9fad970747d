//! What lines ask for and what the program is started for, by examples. The functions run nothing:
//! their contracts are proved.
ghost use Rattle.std.specs.Prelude.{◌≡◌, ◌∷◌, ◌++◌, [], ℕ, pos, neg_ℤ, List, None, Some, codes};
ghost use Rattle.std.specs.Prelude.{true, map, option_map, IfSome};
ghost use Rattle.std.specs.Borrow.{Bor};
ghost use Rattle.clap.specs.Words.{Row, Text};
ghost use Rattle.wb_states.specs.Commands.{name_of_command};
ghost use Rattle.wb_states.specs.declared.command.Command.{Command as AnyCommand};
ghost use Rattle.wb_states.specs.Forms.{AddArch, AddBuilder, Attempted, BuildPriority, Built};
ghost use Rattle.wb_states.specs.Forms.{DepWait, Enter, Fail, Forget};
ghost use Rattle.wb_states.specs.Forms.{GiveBack, Next, NotForUs};
ghost use Rattle.wb_states.specs.Forms.{PutBack, Rebuild, RemoveArch, RemoveBuilder, Take};
ghost use Rattle.wb_states.specs.Forms.{Uploaded, Waits};
ghost use Rattle.wb_states.specs.declared.query.Query.TheVariants as query;
ghost use Rattle.wb_words.specs.Arguments.{integer_in, joined, number_in, parts_in};
ghost use Rattle.wb_words.specs.Start.{IsNoStart, Starts, begin_with_query};
ghost use Rattle.wb_words.specs.Start.{journal_in, keys_in, lists_in, single_words};
ghost use Rattle.wb_words.specs.Start.{start_faults, store_in};
ghost use Rattle.wb_words.specs.Usages.{usage_named, wb_usages};
ghost use Rattle.wb_words.specs.Words.{command_named, invocation_by, invocation_in, IsQuery};
ghost use Rattle.wb_words.specs.declared.start.Start.TheVariants.{Ask, CarryOut, Help, Run, Serve};
ghost use Rattle.wb_words.specs.declared.words.Invocation.TheVariants.{Command, Merge, Query};
ghost use Rattle.wb_words.specs.declared.words.Invocation.TheVariants.{Report};

/// Each subcommand of operators with its arguments is a command.
pub fn operator_lines_are_commands()
    // of architectures and builders
    ensures add_arch { invocation_by (codes "add-arch amd64 linux x86")
        ≡ Some (Command (AddArch (codes "amd64") (codes "linux") (codes "x86"))) }
    ensures add_builder { invocation_by (codes "add-builder b1 amd64")
        ≡ Some (Command (AddBuilder (codes "b1") (codes "amd64"))) }
    ensures remove_arch { invocation_by (codes "remove-arch amd64")
        ≡ Some (Command (RemoveArch (codes "amd64"))) }
    ensures remove_builder { invocation_by (codes "remove-builder b1 amd64")
        ≡ Some (Command (RemoveBuilder (codes "b1") (codes "amd64"))) }
    // of a source package
    ensures enter { invocation_by (codes "enter amd64 hello 1.0-1 optional devel")
        ≡ Some (Command (Enter (codes "amd64") (codes "hello") (codes "1.0-1") (codes "optional")
        (codes "devel"))) }
    ensures give_back { invocation_by (codes "give-back amd64 hello 1.0-1")
        ≡ Some (Command (GiveBack (codes "amd64") (codes "hello") (codes "1.0-1"))) }
    ensures dep_wait { invocation_by (codes "dep-wait amd64 hello 1.0-1 libc6")
        ≡ Some (Command (DepWait (codes "amd64") (codes "hello") (codes "1.0-1")
        (codes "libc6"))) }
    ensures fail { invocation_by (codes "fail amd64 hello 1.0-1")
        ≡ Some (Command (Fail (codes "amd64") (codes "hello") (codes "1.0-1") [])) }
    ensures not_for_us { invocation_by (codes "not-for-us amd64 hello 1.0-1")
        ≡ Some (Command (NotForUs (codes "amd64") (codes "hello") (codes "1.0-1") [])) }
    ensures rebuild { invocation_by (codes "rebuild amd64 hello 1.0-1 2")
        ≡ Some (Command (Rebuild (codes "amd64") (codes "hello") (codes "1.0-1") 2 [])) }
    ensures build_priority { invocation_by (codes "build-priority amd64 hello 1.0-1 5")
        ≡ Some (Command (BuildPriority (codes "amd64") (codes "hello") (codes "1.0-1") (pos 5))) }
    ensures forget { invocation_by (codes "forget amd64 hello 1.0-1")
        ≡ Some (Command (Forget (codes "amd64") (codes "hello") (codes "1.0-1"))) }
{}

/// Each subcommand of builders with its arguments is a command.
pub fn builder_lines_are_commands()
    // of the queue
    ensures next { invocation_by (codes "next amd64 b1")
        ≡ Some (Command (Next (codes "amd64") (codes "b1") None)) }
    ensures take { invocation_by (codes "take amd64 b1 hello 1.0-1")
        ≡ Some (Command (Take (codes "amd64") (codes "b1") (codes "hello") (codes "1.0-1"))) }
    // of what was taken
    ensures built { invocation_by (codes "built 1") ≡ Some (Command (Built 1)) }
    ensures uploaded { invocation_by (codes "uploaded 1") ≡ Some (Command (Uploaded 1)) }
    ensures put_back { invocation_by (codes "put-back 1") ≡ Some (Command (PutBack 1)) }
    ensures waits { invocation_by (codes "waits 1 libc6")
        ≡ Some (Command (Waits 1 (codes "libc6"))) }
    ensures attempted { invocation_by (codes "attempted 1")
        ≡ Some (Command (Attempted 1 [])) }
{}

/// Each subcommand that asks the office is a query. A state's name is taken as it came: the office
/// refuses one that no state has.
pub fn query_lines_are_queries()
    // of an architecture
    ensures queue { invocation_by (codes "queue amd64")
        ≡ Some (Query (query.Queue (codes "amd64"))) }
    ensures summary { invocation_by (codes "summary amd64")
        ≡ Some (Query (query.Summary (codes "amd64"))) }
    ensures by_state { invocation_by (codes "by-state amd64 Needs-Build")
        ≡ Some (Query (query.ByState (codes "amd64") (codes "Needs-Build"))) }
    // of a source package
    ensures item { invocation_by (codes "item amd64 hello")
        ≡ Some (Query (query.Item (codes "amd64") (codes "hello"))) }
    ensures depends { invocation_by (codes "depends amd64 hello")
        ≡ Some (Query (query.Depends (codes "amd64") (codes "hello"))) }
    // of a builder
    ensures mine { invocation_by (codes "mine b1") ≡ Some (Query (query.Mine (codes "b1"))) }
    // of the office
    ensures office { invocation_by (codes "office") ≡ Some (Query query.Office) }
    ensures archs { invocation_by (codes "archs") ≡ Some (Query query.Archs) }
    ensures builders { invocation_by (codes "builders") ≡ Some (Query query.Builders) }
    // words that are lacking, or too many
    ensures no_arch { invocation_by (codes "queue") ≡ None }
    ensures no_state { invocation_by (codes "by-state amd64") ≡ None }
    ensures no_source { invocation_by (codes "depends amd64") ≡ None }
    ensures no_builder { invocation_by (codes "mine") ≡ None }
    ensures two { invocation_by (codes "summary amd64 i386") ≡ None }
    ensures three { invocation_by (codes "item amd64 hello 1.0-1") ≡ None }
    ensures of_no_word { invocation_by (codes "builders b1") ≡ None }
    ensures option { invocation_by (codes "queue -a") ≡ None }
{}

/// A merge names the file of the Sources list, and then parts. Each part is cut at its first `=`.
/// Its architecture may be empty here: the office refuses that.
pub fn merge_lines_name_files()
    ensures one { invocation_by (codes "merge S amd64=P")
        ≡ Some (Merge (codes "S") (record { arch = codes "amd64"; packages = codes "P" } ∷ [])) }
    ensures two { invocation_by (codes "merge S a=P b=Q") ≡ Some (Merge (codes "S")
        (record { arch = codes "a"; packages = codes "P" }
        ∷ record { arch = codes "b"; packages = codes "Q" } ∷ [])) }
    ensures no_arch { invocation_by (codes "merge S =f")
        ≡ Some (Merge (codes "S") (record { arch = []; packages = codes "f" } ∷ [])) }
    ensures first { invocation_by (codes "merge S a=b=c")
        ≡ Some (Merge (codes "S") (record { arch = codes "a"; packages = codes "b=c" } ∷ [])) }
{}

/// A report names its architecture and its file.
pub fn report_lines_name_a_file()
    ensures report { invocation_by (codes "report amd64 builds.txt")
        ≡ Some (Report (codes "amd64") (codes "builds.txt")) }
    ensures no_file { invocation_by (codes "report amd64") ≡ None }
    ensures two { invocation_by (codes "report amd64 a b") ≡ None }
    ensures option { invocation_by (codes "report amd64 -a") ≡ None }
{}

/// One space joins the words of a last argument. The first `--`, before or between them, is none of
/// the words, and a word after it is no option.
pub fn last_words_are_joined()
    ensures relations { invocation_by (codes "waits 1 libc6 (>= 2), gcc")
        ≡ Some (Command (Waits 1 (codes "libc6 (>= 2), gcc"))) }
    ensures dep_wait { invocation_by (codes "dep-wait amd64 s 1 libc6 (>= 2)")
        ≡ Some (Command (DepWait (codes "amd64") (codes "s") (codes "1") (codes "libc6 (>= 2)"))) }
    ensures note { invocation_by (codes "fail a s v a -- -h -- b")
        ≡ Some (Command (Fail (codes "a") (codes "s") (codes "v") (codes "a -h -- b"))) }
    ensures not_for_us { invocation_by (codes "not-for-us a s v -- -x")
        ≡ Some (Command (NotForUs (codes "a") (codes "s") (codes "v") (codes "-x"))) }
    ensures message { invocation_by (codes "rebuild a s v 1 help - me")
        ≡ Some (Command (Rebuild (codes "a") (codes "s") (codes "v") 1 (codes "help - me"))) }
    ensures reason { invocation_by (codes "attempted 1 no -- -lm found")
        ≡ Some (Command (Attempted 1 (codes "no -lm found"))) }
{}

/// The option `--after` may be anywhere before `--`. Its number comes after a space or `=`.
pub fn options_are_read()
    ensures last { invocation_by (codes "next a b --after 5")
        ≡ Some (Command (Next (codes "a") (codes "b") (Some 5))) }
    ensures first { invocation_by (codes "next --after 5 a b")
        ≡ Some (Command (Next (codes "a") (codes "b") (Some 5))) }
    ensures equals { invocation_by (codes "next a --after=5 b")
        ≡ Some (Command (Next (codes "a") (codes "b") (Some 5))) }
    ensures escaped { invocation_by (codes "next a -- -b1")
        ≡ Some (Command (Next (codes "a") (codes "-b1") None)) }
    ensures hyphen { invocation_by (codes "next a -")
        ≡ Some (Command (Next (codes "a") (codes "-") None)) }
{}

/// Numbers are read with a plus sign and leading zeros, up to 2^64 - 1, and no others are.
pub fn numbers_are_read()
    // numbers
    ensures plus { invocation_by (codes "built +7") ≡ Some (Command (Built 7)) }
    ensures zeros { invocation_by (codes "built 007") ≡ Some (Command (Built 7)) }
    ensures greatest { invocation_by (codes "built 18446744073709551615")
        ≡ Some (Command (Built 18446744073709551615)) }
    // other words
    ensures too_great { invocation_by (codes "built 18446744073709551616") ≡ None }
    ensures negative { invocation_by (codes "built -- -1") ≡ None }
    ensures number { invocation_by (codes "rebuild a s v 1x") ≡ None }
    ensures after { invocation_by (codes "next a b --after=") ≡ None }
    ensures attempted { invocation_by (codes "attempted no 1") ≡ None }
{}

/// Build priorities are read with a plus or a minus sign and leading zeros, from -2^63 to 2^63 - 1,
/// and no others are.
pub fn integers_are_read()
    // integers
    ensures plus { invocation_by (codes "build-priority a s v +7")
        ≡ Some (Command (BuildPriority (codes "a") (codes "s") (codes "v") (pos 7))) }
    ensures zeros { invocation_by (codes "build-priority a s v 007")
        ≡ Some (Command (BuildPriority (codes "a") (codes "s") (codes "v") (pos 7))) }
    ensures minus { invocation_by (codes "build-priority a s v -- -5")
        ≡ Some (Command (BuildPriority (codes "a") (codes "s") (codes "v") (neg_ℤ (pos 5)))) }
    ensures nought { invocation_by (codes "build-priority a s v -- -0")
        ≡ Some (Command (BuildPriority (codes "a") (codes "s") (codes "v") (pos 0))) }
    ensures greatest { invocation_by (codes "build-priority a s v 9223372036854775807")
        ≡ Some (Command (BuildPriority (codes "a") (codes "s") (codes "v") (pos 9223372036854775807))) }
    ensures least { invocation_by (codes "build-priority a s v -- -9223372036854775808")
        ≡ Some (Command (BuildPriority (codes "a") (codes "s") (codes "v")
        (neg_ℤ (pos 9223372036854775808)))) }
    // other words
    ensures too_great { invocation_by (codes "build-priority a s v 9223372036854775808") ≡ None }
    ensures too_small { invocation_by (codes "build-priority a s v -- -9223372036854775809") ≡ None }
    ensures signs { invocation_by (codes "build-priority a s v -- +-5") ≡ None }
    ensures lone_sign { invocation_by (codes "build-priority a s v -") ≡ None }
    ensures number { invocation_by (codes "build-priority a s v 5x") ≡ None }
    // the arguments
    ensures missing { invocation_by (codes "build-priority a s v") ≡ None }
    ensures many { invocation_by (codes "build-priority a s v 5 6") ≡ None }
{}

/// A negative build priority that is the last word needs no `--` before it. Any other word of two
/// or more bytes that begins with a hyphen is an option, as of other subcommands.
pub fn negative_build_priorities_are_read()
    // with and without `--`
    ensures bare { invocation_by (codes "build-priority a s v -50")
        ≡ Some (Command (BuildPriority (codes "a") (codes "s") (codes "v") (neg_ℤ (pos 50)))) }
    ensures nought { invocation_by (codes "build-priority a s v -0")
        ≡ Some (Command (BuildPriority (codes "a") (codes "s") (codes "v") (pos 0))) }
    ensures zeros { invocation_by (codes "build-priority a s v -007")
        ≡ Some (Command (BuildPriority (codes "a") (codes "s") (codes "v") (neg_ℤ (pos 7)))) }
    ensures least { invocation_by (codes "build-priority a s v -9223372036854775808")
        ≡ Some (Command (BuildPriority (codes "a") (codes "s") (codes "v")
        (neg_ℤ (pos 9223372036854775808)))) }
    ensures escaped { invocation_by (codes "build-priority a -- s v -5")
        ≡ Some (Command (BuildPriority (codes "a") (codes "s") (codes "v") (neg_ℤ (pos 5)))) }
    // other words
    ensures too_small { invocation_by (codes "build-priority a s v -9223372036854775809") ≡ None }
    ensures letters { invocation_by (codes "build-priority a s v -5x") ≡ None }
    ensures signs { invocation_by (codes "build-priority a s v -+5") ≡ None }
    ensures missing { invocation_by (codes "build-priority a s -5") ≡ None }
    ensures many { invocation_by (codes "build-priority a s v -5 -6") ≡ None }
    ensures early { invocation_by (codes "build-priority a s -5 v") ≡ None }
    ensures option { invocation_by (codes "build-priority a s -v -5") ≡ None }
    ensures other { invocation_by (codes "rebuild a s v -1") ≡ None }
    ensures note { invocation_by (codes "fail a s v -1") ≡ None }
{}

/// After `--` each word is an argument, whatever its bytes are, and so is what comes after
/// `--after=`: these are all texts. A last argument of several words has two of them here.
pub fn any_words_are_arguments()
    // of operators
    ensures add_arch { (name os cpu : List ℕ) → invocation_in (codes "add-arch" ∷ codes "--" ∷ name ∷ os
        ∷ cpu ∷ []) ≡ Some (Command (AddArch name os cpu)) }
    ensures add_builder { (name arch : List ℕ) → invocation_in (codes "add-builder" ∷ codes "--" ∷ name
        ∷ arch ∷ []) ≡ Some (Command (AddBuilder name arch)) }
    ensures remove_arch { (name : List ℕ) → invocation_in (codes "remove-arch" ∷ codes "--" ∷ name ∷ [])
        ≡ Some (Command (RemoveArch name)) }
    ensures remove_builder { (name arch : List ℕ) → invocation_in (codes "remove-builder" ∷ codes "--"
        ∷ name ∷ arch ∷ []) ≡ Some (Command (RemoveBuilder name arch)) }
    ensures enter { (arch source version priority section : List ℕ)
        → invocation_in (codes "enter" ∷ codes "--" ∷ arch ∷ source ∷ version ∷ priority ∷ section ∷ [])
        ≡ Some (Command (Enter arch source version priority section)) }
    ensures give_back { (arch source version : List ℕ) → invocation_in (codes "give-back" ∷ codes "--"
        ∷ arch ∷ source ∷ version ∷ []) ≡ Some (Command (GiveBack arch source version)) }
    ensures dep_wait { (arch source version first second : List ℕ)
        → invocation_in (codes "dep-wait" ∷ codes "--" ∷ arch ∷ source ∷ version ∷ first ∷ second ∷ [])
        ≡ Some (Command (DepWait arch source version (joined (first ∷ second ∷ [])))) }
    ensures fail { (arch source version first second : List ℕ)
        → invocation_in (codes "fail" ∷ codes "--" ∷ arch ∷ source ∷ version ∷ first ∷ second ∷ [])
        ≡ Some (Command (Fail arch source version (joined (first ∷ second ∷ [])))) }
    ensures not_for_us { (arch source version first second : List ℕ)
        → invocation_in (codes "not-for-us" ∷ codes "--" ∷ arch ∷ source ∷ version ∷ first ∷ second ∷ [])
        ≡ Some (Command (NotForUs arch source version (joined (first ∷ second ∷ [])))) }
    ensures rebuild { (arch source version number first second : List ℕ)
        → invocation_in (codes "rebuild" ∷ codes "--" ∷ arch ∷ source ∷ version ∷ number ∷ first
        ∷ second ∷ []) ≡ option_map (λ n. Command (Rebuild arch source version n
        (joined (first ∷ second ∷ [])))) (number_in number) }
    ensures build_priority { (arch source version value : List ℕ)
        → invocation_in (codes "build-priority" ∷ codes "--" ∷ arch ∷ source ∷ version ∷ value ∷ [])
        ≡ option_map (λ n. Command (BuildPriority arch source version n)) (integer_in value) }
    ensures forget { (arch source version : List ℕ) → invocation_in (codes "forget" ∷ codes "--"
        ∷ arch ∷ source ∷ version ∷ []) ≡ Some (Command (Forget arch source version)) }
    // of builders
    ensures next { (arch builder : List ℕ) → invocation_in (codes "next" ∷ codes "--" ∷ arch ∷ builder
        ∷ []) ≡ Some (Command (Next arch builder None)) }
    ensures after { (arch builder after : List ℕ) → invocation_in (codes "next"
        ∷ (codes "--after=" ++ after) ∷ codes "--" ∷ arch ∷ builder ∷ [])
        ≡ option_map (λ n. Command (Next arch builder (Some n))) (number_in after) }
    ensures take { (arch builder source version : List ℕ) → invocation_in (codes "take" ∷ codes "--"
        ∷ arch ∷ builder ∷ source ∷ version ∷ [])
        ≡ Some (Command (Take arch builder source version)) }
    ensures built { (take_number : List ℕ) → invocation_in (codes "built" ∷ codes "--"
        ∷ take_number ∷ []) ≡ option_map (λ n. Command (Built n)) (number_in take_number) }
    ensures uploaded { (take_number : List ℕ) → invocation_in (codes "uploaded" ∷ codes "--"
        ∷ take_number ∷ []) ≡ option_map (λ n. Command (Uploaded n)) (number_in take_number) }
    ensures put_back { (take_number : List ℕ) → invocation_in (codes "put-back" ∷ codes "--"
        ∷ take_number ∷ []) ≡ option_map (λ n. Command (PutBack n)) (number_in take_number) }
    ensures waits { (take_number first second : List ℕ) → invocation_in (codes "waits" ∷ codes "--"
        ∷ take_number ∷ first ∷ second ∷ [])
        ≡ option_map (λ n. Command (Waits n (joined (first ∷ second ∷ []))))
        (number_in take_number) }
    ensures attempted { (take_number first second : List ℕ) → invocation_in (codes "attempted"
        ∷ codes "--" ∷ take_number ∷ first ∷ second ∷ [])
        ≡ option_map (λ n. Command (Attempted n (joined (first ∷ second ∷ []))))
        (number_in take_number) }
    // of queries
    ensures queue { (arch : List ℕ) → invocation_in (codes "queue" ∷ codes "--" ∷ arch ∷ [])
        ≡ Some (Query (query.Queue arch)) }
    ensures summary { (arch : List ℕ) → invocation_in (codes "summary" ∷ codes "--" ∷ arch ∷ [])
        ≡ Some (Query (query.Summary arch)) }
    ensures by_state { (arch state : List ℕ) → invocation_in (codes "by-state" ∷ codes "--" ∷ arch ∷ state
        ∷ []) ≡ Some (Query (query.ByState arch state)) }
    ensures item { (arch source : List ℕ) → invocation_in (codes "item" ∷ codes "--" ∷ arch ∷ source
        ∷ []) ≡ Some (Query (query.Item arch source)) }
    ensures depends { (arch source : List ℕ) → invocation_in (codes "depends" ∷ codes "--" ∷ arch ∷ source
        ∷ []) ≡ Some (Query (query.Depends arch source)) }
    ensures mine { (builder : List ℕ) → invocation_in (codes "mine" ∷ codes "--" ∷ builder ∷ [])
        ≡ Some (Query (query.Mine builder)) }
    // of files
    ensures merge { (sources first second : List ℕ) → invocation_in (codes "merge" ∷ codes "--"
        ∷ sources ∷ first ∷ second ∷ [])
        ≡ option_map (λ parts. Merge sources parts) (parts_in (first ∷ second ∷ [])) }
    ensures report { (arch file : List ℕ) → invocation_in (codes "report" ∷ codes "--" ∷ arch ∷ file ∷ [])
        ≡ Some (Report arch file) }
{}

/// These words ask for nothing: no words, an unknown subcommand, help in its three forms, words
/// without an argument, a word too many, and an option.
pub fn other_words_are_none()
    // the subcommand
    ensures none { invocation_in [] ≡ None }
    ensures unknown { invocation_by (codes "nexts amd64 b1") ≡ None }
    // help
    ensures help { invocation_by (codes "help") ≡ None }
    ensures long_help { invocation_by (codes "next --help") ≡ None }
    ensures short_help { invocation_by (codes "-h") ≡ None }
    // the arguments
    ensures missing { invocation_by (codes "next amd64") ≡ None }
    ensures many { invocation_by (codes "next amd64 b1 b2") ≡ None }
    ensures option { invocation_by (codes "next amd64 -b1") ≡ None }
{}

/// Words whose first is the name of no subcommand ask for nothing, whatever follows.
pub fn other_names_are_none()
    ensures { (name : Text) (others : List Text) → usage_named name wb_usages ≡ None
        → invocation_in (name ∷ others) ≡ None }
{}

/// These words ask for nothing: `waits` without relations, an option in a note or a reason, a merge
/// without a part, a part without `=`, and an option `--after` that comes twice or has no number.
pub fn other_arguments_are_none()
    // the last words
    ensures relations { invocation_by (codes "waits 1") ≡ None }
    ensures note { invocation_by (codes "fail a s v a -h") ≡ None }
    ensures reason { invocation_by (codes "attempted 1 a -h") ≡ None }
    ensures no_part { invocation_by (codes "merge S") ≡ None }
    ensures part { invocation_by (codes "merge S a=P b") ≡ None }
    // the option
    ensures twice { invocation_by (codes "next a b --after 5 --after 5") ≡ None }
    ensures lacking { invocation_by (codes "next a b --after") ≡ None }
    ensures other { invocation_by (codes "next a b --aft 5") ≡ None }
{}

/// What the program is started for: `run`, help in its three forms, and words that ask for nothing.
pub fn starts_are_read()
    // help is wanted, also after `run` and after a command
    ensures run { Starts (codes "run" ∷ []) (Run None None) }
    ensures stored { start_faults (codes "--store" ∷ codes "/var/lib/wb" ∷ codes "run" ∷ []) ≡ [] }
    ensures file { store_in (codes "--store" ∷ codes "/var/lib/wb" ∷ codes "run" ∷ []) ≡ Some (codes "/var/lib/wb") }
    ensures equals { store_in (codes "--store=a b" ∷ codes "run" ∷ []) ≡ Some (codes "a b") }
    ensures help { Starts (codes "help" ∷ codes "run" ∷ []) Help }
    ensures long_help { Starts (codes "run" ∷ codes "--help" ∷ []) Help }
    ensures short_help { Starts (codes "-h" ∷ []) Help }
    ensures command_help { Starts (codes "next" ∷ codes "amd64" ∷ codes "-h" ∷ []) Help }
    // no words, an unknown subcommand, and a word that `run` does not take
    ensures nothing { IsNoStart [] }
    ensures unknown { IsNoStart (codes "nexts" ∷ codes "amd64" ∷ codes "b1" ∷ []) }
    ensures many { IsNoStart (codes "run" ∷ codes "now" ∷ codes "-h" ∷ []) }
    // a file that is not named, is named twice, or comes after `run`
    ensures unnamed { IsNoStart (codes "--store" ∷ []) }
    ensures twice { IsNoStart (codes "--store=a" ∷ codes "--store=b" ∷ codes "run" ∷ []) }
    ensures behind { IsNoStart (codes "run" ∷ codes "--store=a" ∷ []) }
{}

/// `run` and `serve` take the file of a journal, once, after them and in any place among their
/// options; no other subcommand takes one.
pub fn journals_are_read()
    ensures run { journal_in (codes "run" ∷ codes "--journal" ∷ codes "wb.journal" ∷ []) ≡ Some (codes "wb.journal") }
    ensures run_read { start_faults (codes "run" ∷ codes "--journal=a b" ∷ []) ≡ [] }
    ensures serve { journal_in (codes "serve" ∷ codes "--journal=a b" ∷ codes "--port=1" ∷ []) ≡ Some (codes "a b") }
    ensures serve_read { start_faults (codes "serve" ∷ codes "--journal=a b" ∷ codes "--port=1" ∷ []) ≡ [] }
    ensures none { journal_in (codes "run" ∷ []) ≡ None }
    // without a file, twice, before the subcommand, and after another one
    ensures unnamed { IsNoStart (codes "run" ∷ codes "--journal" ∷ []) }
    ensures twice { IsNoStart (codes "run" ∷ codes "--journal=a" ∷ codes "--journal=b" ∷ []) }
    ensures before { IsNoStart (codes "--journal=a" ∷ codes "run" ∷ []) }
    ensures other { IsNoStart (codes "queue" ∷ codes "amd64" ∷ codes "--journal=a" ∷ []) }
{}

/// A single command is asked for by its words, and a query as such: those are the words after the
/// file that keeps the records. What `clap` tests of them is tested first.
pub fn single_commands_are_read()
    ensures asked { (given : Bor (List (Bor Text)))
        → map (λ word. word.now) given.now ≡ codes "summary" ∷ codes "amd64" ∷ []
        → Starts (codes "summary" ∷ codes "amd64" ∷ []) (Ask None given) }
    ensures carried_out { (given : Bor (List (Bor Text)))
        → map (λ word. word.now) given.now ≡ codes "add-builder" ∷ codes "b1" ∷ codes "" ∷ []
        → Starts (codes "add-builder" ∷ codes "b1" ∷ codes "" ∷ []) (CarryOut None given) }
    // after the file, with words that are taken as they are
    ensures after_file { single_words (codes "--store" ∷ codes "wb.db" ∷ codes "queue" ∷ codes "a b" ∷ [])
        ≡ codes "queue" ∷ codes "a b" ∷ [] }
    ensures after_equals { single_words (codes "--store=wb.db" ∷ codes "mine" ∷ codes "b1" ∷ [])
        ≡ codes "mine" ∷ codes "b1" ∷ [] }
    ensures stored { start_faults (codes "--store" ∷ codes "wb.db" ∷ codes "fail" ∷ codes "a" ∷ codes "s" ∷ codes "1" ∷ codes "a  b"
        ∷ codes "" ∷ []) ≡ [] }
    ensures file { store_in (codes "--store" ∷ codes "wb.db" ∷ codes "item" ∷ codes "a" ∷ codes "s" ∷ []) ≡ Some (codes "wb.db") }
    // a negative build priority
    ensures negative { (given : Bor (List (Bor Text)))
        → map (λ word. word.now) given.now ≡ codes "build-priority" ∷ codes "a" ∷ codes "s" ∷ codes "1" ∷ codes "-50" ∷ []
        → Starts (codes "build-priority" ∷ codes "a" ∷ codes "s" ∷ codes "1" ∷ codes "-50" ∷ []) (CarryOut None given) }
    ensures negative_stored { start_faults (codes "--store" ∷ codes "wb.db" ∷ codes "build-priority" ∷ codes "a" ∷ codes "s"
        ∷ codes "1" ∷ codes "-50" ∷ []) ≡ [] }
    // a number and a part are read later
    ensures number { start_faults (codes "built" ∷ codes "one" ∷ []) ≡ [] }
    ensures part { start_faults (codes "merge" ∷ codes "S" ∷ codes "amd64" ∷ []) ≡ [] }
    // a word is lacking, or there is one too many, or an option that there is not
    ensures lacking { IsNoStart (codes "item" ∷ codes "amd64" ∷ []) }
    ensures many { IsNoStart (codes "queue" ∷ codes "amd64" ∷ codes "i386" ∷ []) }
    ensures option { IsNoStart (codes "next" ∷ codes "amd64" ∷ codes "-b1" ∷ []) }
    ensures negative_option { IsNoStart (codes "build-priority" ∷ codes "-5" ∷ codes "s" ∷ codes "1" ∷ codes "5" ∷ []) }
    ensures behind { IsNoStart (codes "queue" ∷ codes "amd64" ∷ codes "--store=a" ∷ []) }
    ensures escape { IsNoStart (codes "--" ∷ codes "queue" ∷ codes "amd64" ∷ []) }
{}

/// Words whose first is the name of a query ask for no command, whatever follows: they ask for a
/// query or for nothing.
pub fn queries_ask_for_no_command()
    ensures { (words : List Text) → begin_with_query words ≡ true
        → IfSome (invocation_in words) IsQuery }
{}

/// What the program serves: on which port, and how many connections; without their number, all.
/// Both numbers are read as `numbers_are_read` has it, and stand within their limits.
pub fn services_are_read()
    ensures serve { Starts (codes "serve" ∷ codes "--port" ∷ codes "8080" ∷ codes "--requests" ∷ codes "10" ∷ [])
        (Serve None 8080 (Some 10) None None None) }
    ensures order { Starts (codes "serve" ∷ codes "--requests=+1" ∷ codes "--port=007" ∷ [])
        (Serve None 7 (Some 1) None None None) }
    ensures greatest { Starts (codes "serve" ∷ codes "--port=65535" ∷ codes "--requests=1000000" ∷ [])
        (Serve None 65535 (Some 1000000) None None None) }
    ensures unlimited { Starts (codes "serve" ∷ codes "--port=1" ∷ [])
        (Serve None 1 None None None None) }
    ensures file { store_in (codes "--store" ∷ codes "wb.db" ∷ codes "serve" ∷ codes "--port=1" ∷ codes "--requests=1"
        ∷ []) ≡ Some (codes "wb.db") }
    ensures help { Starts (codes "serve" ∷ codes "--help" ∷ []) Help }
    // the port is missing, or there are two
    ensures bare { IsNoStart (codes "serve" ∷ []) }
    ensures no_port { IsNoStart (codes "serve" ∷ codes "--requests=1" ∷ []) }
    ensures twice { IsNoStart (codes "serve" ∷ codes "--port=1" ∷ codes "--port=1" ∷ codes "--requests=1" ∷ []) }
    ensures both { IsNoStart (codes "serve" ∷ codes "--port=1" ∷ codes "--requests=1" ∷ codes "--requests=1" ∷ []) }
    // a number is out of range, or is none
    ensures port_zero { IsNoStart (codes "serve" ∷ codes "--port=0" ∷ codes "--requests=1" ∷ []) }
    ensures port_above { IsNoStart (codes "serve" ∷ codes "--port=65536" ∷ codes "--requests=1" ∷ []) }
    ensures requests_zero { IsNoStart (codes "serve" ∷ codes "--port=1" ∷ codes "--requests=0" ∷ []) }
    ensures requests_above { IsNoStart (codes "serve" ∷ codes "--port=1" ∷ codes "--requests=1000001" ∷ []) }
    ensures word { IsNoStart (codes "serve" ∷ codes "--port=http" ∷ codes "--requests=1" ∷ []) }
    // a word too many, and `--store` after the subcommand
    ensures surplus { IsNoStart (codes "serve" ∷ codes "--port=1" ∷ codes "--requests=1" ∷ codes "now" ∷ []) }
    ensures behind { IsNoStart (codes "serve" ∷ codes "--port=1" ∷ codes "--requests=1" ∷ codes "--store=a" ∷ []) }
    // in a line of `run`
    ensures line { invocation_by (codes "serve --port 1 --requests 1") ≡ None }
{}

/// `serve` takes the folder of the lists that a request may merge, once, after it and in any place
/// among its options; no other subcommand takes one.
pub fn folders_are_read()
    ensures serve { lists_in (codes "serve" ∷ codes "--port=1" ∷ codes "--lists" ∷ codes "a" ∷ [])
        ≡ Some (codes "a") }
    ensures before { lists_in (codes "serve" ∷ codes "--lists=a b" ∷ codes "--port=1" ∷ [])
        ≡ Some (codes "a b") }
    ensures read { start_faults (codes "serve" ∷ codes "--lists=a b" ∷ codes "--port=1" ∷ []) ≡ [] }
    ensures both { journal_in (codes "serve" ∷ codes "--lists=a" ∷ codes "--journal=b"
        ∷ codes "--port=1" ∷ []) ≡ Some (codes "b") }
    ensures none { lists_in (codes "serve" ∷ codes "--port=1" ∷ []) ≡ None }
    // without a folder, twice, before the subcommand, and after another one
    ensures unnamed { IsNoStart (codes "serve" ∷ codes "--port=1" ∷ codes "--lists" ∷ []) }
    ensures twice { IsNoStart (codes "serve" ∷ codes "--port=1" ∷ codes "--lists=a"
        ∷ codes "--lists=b" ∷ []) }
    ensures first { IsNoStart (codes "--lists=a" ∷ codes "serve" ∷ codes "--port=1" ∷ []) }
    ensures run { IsNoStart (codes "run" ∷ codes "--lists=a" ∷ []) }
    ensures other { IsNoStart (codes "queue" ∷ codes "amd64" ∷ codes "--lists=a" ∷ []) }
{}

/// `serve` takes the file of keys, once, after it and in any place among its options; no other
/// subcommand takes one.
pub fn key_files_are_read()
    ensures serve { keys_in (codes "serve" ∷ codes "--port=1" ∷ codes "--keys" ∷ codes "a" ∷ [])
        ≡ Some (codes "a") }
    ensures before { keys_in (codes "serve" ∷ codes "--keys=a b" ∷ codes "--port=1" ∷ [])
        ≡ Some (codes "a b") }
    ensures read { start_faults (codes "serve" ∷ codes "--keys=a b" ∷ codes "--port=1" ∷ []) ≡ [] }
    ensures both { lists_in (codes "serve" ∷ codes "--keys=a" ∷ codes "--lists=b"
        ∷ codes "--port=1" ∷ []) ≡ Some (codes "b") }
    ensures none { keys_in (codes "serve" ∷ codes "--port=1" ∷ []) ≡ None }
    // without a file, twice, before the subcommand, and after another one
    ensures unnamed { IsNoStart (codes "serve" ∷ codes "--port=1" ∷ codes "--keys" ∷ []) }
    ensures twice { IsNoStart (codes "serve" ∷ codes "--port=1" ∷ codes "--keys=a"
        ∷ codes "--keys=b" ∷ []) }
    ensures first { IsNoStart (codes "--keys=a" ∷ codes "serve" ∷ codes "--port=1" ∷ []) }
    ensures run { IsNoStart (codes "run" ∷ codes "--keys=a" ∷ []) }
    ensures other { IsNoStart (codes "queue" ∷ codes "amd64" ∷ codes "--keys=a" ∷ []) }
{}

/// A command is asked for by its own name, which its answer then reports.
pub fn commands_go_by_their_names()
    ensures { (name : Text) (rows : List Row) (command : AnyCommand)
        → command_named name rows ≡ Some command → name ≡ name_of_command command }
{}
