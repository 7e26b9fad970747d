//! What holds of the lines of a journal. The function runs nothing: its contract is proved.
ghost use Rattle.std.specs.Prelude.{◌≡◌, ◌<◌, ◌^◌, ℕ, ℤ, List, Option, Some, negsuc, pos};
ghost use Rattle.wb_api.specs.Commands.{command_in};
ghost use Rattle.wb_api.specs.Keys.{names_in, names_of_entry};
ghost use Rattle.wb_api.specs.declared.route.CommandKind.TheVariants as kind;
ghost use Rattle.wb_journal.specs.Commands.{value_of_command};
ghost use Rattle.wb_states.specs.Forms.{AddArch, AddBuilder, Attempted, BuildPriority, Built};
ghost use Rattle.wb_states.specs.Forms.{DepWait, Enter, Fail, Forget, GiveBack, Next, NotForUs};
ghost use Rattle.wb_states.specs.Forms.{PutBack, Rebuild, RemoveArch, RemoveBuilder, Take};
ghost use Rattle.wb_states.specs.Forms.{Uploaded, Waits};

/// What a journal has of a command is the body of the request that gives it, for each command that
/// a request gives but a report, of which it has the length alone: so what was accepted can be
/// given again.
pub fn entries_are_bodies_of_requests()
    // of builders
    ensures next { (arch builder : List ℕ) (after : Option ℕ)
        → command_in kind.Next (value_of_command (Next arch builder after)) ≡ Some (Next arch builder after) }
    ensures take { (arch builder source version : List ℕ)
        → command_in kind.Take (value_of_command (Take arch builder source version))
        ≡ Some (Take arch builder source version) }
    ensures built { (take_number : ℕ) → command_in kind.Built (value_of_command (Built take_number)) ≡ Some (Built take_number) }
    ensures uploaded { (take_number : ℕ)
        → command_in kind.Uploaded (value_of_command (Uploaded take_number)) ≡ Some (Uploaded take_number) }
    ensures waits { (take_number : ℕ) (relations : List ℕ)
        → command_in kind.Waits (value_of_command (Waits take_number relations)) ≡ Some (Waits take_number relations) }
    ensures put_back { (take_number : ℕ)
        → command_in kind.PutBack (value_of_command (PutBack take_number)) ≡ Some (PutBack take_number) }
    ensures attempted { (take_number : ℕ) (reason : List ℕ)
        → command_in kind.Attempted (value_of_command (Attempted take_number reason)) ≡ Some (Attempted take_number reason) }
    // of operators
    ensures add_arch { (name os cpu : List ℕ)
        → command_in kind.AddArch (value_of_command (AddArch name os cpu))
        ≡ Some (AddArch name os cpu) }
    ensures add_builder { (name arch : List ℕ)
        → command_in kind.AddBuilder (value_of_command (AddBuilder name arch))
        ≡ Some (AddBuilder name arch) }
    ensures remove_arch { (name : List ℕ)
        → command_in kind.RemoveArch (value_of_command (RemoveArch name)) ≡ Some (RemoveArch name) }
    ensures remove_builder { (name arch : List ℕ)
        → command_in kind.RemoveBuilder (value_of_command (RemoveBuilder name arch))
        ≡ Some (RemoveBuilder name arch) }
    ensures enter { (arch source version priority section : List ℕ)
        → command_in kind.Enter (value_of_command (Enter arch source version priority section))
        ≡ Some (Enter arch source version priority section) }
    ensures give_back { (arch source version : List ℕ)
        → command_in kind.GiveBack (value_of_command (GiveBack arch source version)) ≡ Some (GiveBack arch source version) }
    ensures dep_wait { (arch source version relations : List ℕ)
        → command_in kind.DepWait (value_of_command (DepWait arch source version relations))
        ≡ Some (DepWait arch source version relations) }
    ensures fail { (arch source version note : List ℕ)
        → command_in kind.Fail (value_of_command (Fail arch source version note)) ≡ Some (Fail arch source version note) }
    ensures not_for_us { (arch source version note : List ℕ)
        → command_in kind.NotForUs (value_of_command (NotForUs arch source version note))
        ≡ Some (NotForUs arch source version note) }
    ensures rebuild { (arch source version : List ℕ) (number : ℕ) (message : List ℕ)
        → command_in kind.Rebuild (value_of_command (Rebuild arch source version number message))
        ≡ Some (Rebuild arch source version number message) }
    ensures build_priority { (arch source version : List ℕ) (value : ℕ) → value < 2 ^ 63
        → command_in kind.BuildPriority (value_of_command (BuildPriority arch source version (pos value)))
        ≡ Some (BuildPriority arch source version (pos value)) }
    ensures minus { (arch source version : List ℕ) (less : ℕ)
        → command_in kind.BuildPriority (value_of_command (BuildPriority arch source version (negsuc less)))
        ≡ Some (BuildPriority arch source version (negsuc less)) }
    ensures forget { (arch source version : List ℕ)
        → command_in kind.Forget (value_of_command (Forget arch source version)) ≡ Some (Forget arch source version) }
{}

/// What a journal has of such a command has the keys of the table by which a request is read, and
/// the key of its name, each at its place in the order of bytes, and no other.
pub fn entries_have_the_keys_of_requests()
    // of builders
    ensures next { (arch builder : List ℕ) (after : Option ℕ)
        → names_in (value_of_command (Next arch builder after)) ≡ names_of_entry kind.Next }
    ensures take { (arch builder source version : List ℕ)
        → names_in (value_of_command (Take arch builder source version)) ≡ names_of_entry kind.Take }
    ensures built { (take_number : ℕ) → names_in (value_of_command (Built take_number)) ≡ names_of_entry kind.Built }
    ensures uploaded { (take_number : ℕ)
        → names_in (value_of_command (Uploaded take_number)) ≡ names_of_entry kind.Uploaded }
    ensures waits { (take_number : ℕ) (relations : List ℕ)
        → names_in (value_of_command (Waits take_number relations)) ≡ names_of_entry kind.Waits }
    ensures put_back { (take_number : ℕ)
        → names_in (value_of_command (PutBack take_number)) ≡ names_of_entry kind.PutBack }
    ensures attempted { (take_number : ℕ) (reason : List ℕ)
        → names_in (value_of_command (Attempted take_number reason)) ≡ names_of_entry kind.Attempted }
    // of operators
    ensures add_arch { (name os cpu : List ℕ)
        → names_in (value_of_command (AddArch name os cpu)) ≡ names_of_entry kind.AddArch }
    ensures add_builder { (name arch : List ℕ)
        → names_in (value_of_command (AddBuilder name arch)) ≡ names_of_entry kind.AddBuilder }
    ensures remove_arch { (name : List ℕ)
        → names_in (value_of_command (RemoveArch name)) ≡ names_of_entry kind.RemoveArch }
    ensures remove_builder { (name arch : List ℕ)
        → names_in (value_of_command (RemoveBuilder name arch)) ≡ names_of_entry kind.RemoveBuilder }
    ensures enter { (arch source version priority section : List ℕ)
        → names_in (value_of_command (Enter arch source version priority section))
        ≡ names_of_entry kind.Enter }
    ensures give_back { (arch source version : List ℕ)
        → names_in (value_of_command (GiveBack arch source version)) ≡ names_of_entry kind.GiveBack }
    ensures dep_wait { (arch source version relations : List ℕ)
        → names_in (value_of_command (DepWait arch source version relations)) ≡ names_of_entry kind.DepWait }
    ensures fail { (arch source version note : List ℕ)
        → names_in (value_of_command (Fail arch source version note)) ≡ names_of_entry kind.Fail }
    ensures not_for_us { (arch source version note : List ℕ)
        → names_in (value_of_command (NotForUs arch source version note)) ≡ names_of_entry kind.NotForUs }
    ensures rebuild { (arch source version : List ℕ) (number : ℕ) (message : List ℕ)
        → names_in (value_of_command (Rebuild arch source version number message)) ≡ names_of_entry kind.Rebuild }
    ensures build_priority { (arch source version : List ℕ) (value : ℤ)
        → names_in (value_of_command (BuildPriority arch source version value)) ≡ names_of_entry kind.BuildPriority }
    ensures forget { (arch source version : List ℕ)
        → names_in (value_of_command (Forget arch source version)) ≡ names_of_entry kind.Forget }
{}
