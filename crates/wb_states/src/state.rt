//! The states of a source package on an architecture, with wanna-build's names.
ghost use Rattle.std.specs.Prelude.{◌≡◌, ◌≢◌, ◌<◌, IfSome, IfNone};
ghost use Rattle.wb_states.specs.State.{code_of, name_of, state_named};

/// Where a source package stands on an architecture. The names are wanna-build's, the codes are
/// this project's own and never change.
#[derive(Clone, Copy, Debug, PartialEq, Eq)]
pub enum State {
    /// It waits in the queue for a builder.
    NeedsBuild,
    /// A builder holds it and builds it.
    Building,
    /// Its holder built it and has not uploaded it yet.
    Built,
    /// Its holder uploaded it, and the archive has not listed it yet.
    Uploaded,
    /// The archive has it.
    Installed,
    /// It waits until the archive has what it needs to be built.
    DepWait,
    /// What it needs to be built cannot be installed.
    BdUninstallable,
    /// A person found that its build fails.
    Failed,
    /// It is not to be built on this architecture.
    NotForUs,
    /// Its holder reported that its build failed, and nobody has looked yet.
    BuildAttempted,
}

impl State {
    /// The state's number, from 0 to 9 (this project's own).
    pub fn code(self) -> u8
        ensures value { result ≡ code_of self }
    {
        match self {
            State::NeedsBuild => 0,
            State::Building => 1,
            State::Built => 2,
            State::Uploaded => 3,
            State::Installed => 4,
            State::DepWait => 5,
            State::BdUninstallable => 6,
            State::Failed => 7,
            State::NotForUs => 8,
            State::BuildAttempted => 9,
        }
    }

    /// The state with this number, or none if no state has it.
    pub fn of_code(code: u8) -> Option<State>
        ensures value { IfSome result (λ state. code_of state ≡ code) }
        ensures refused { IfNone result (9 < code) }
    {
        match code {
            0 => Some(State::NeedsBuild),
            1 => Some(State::Building),
            2 => Some(State::Built),
            3 => Some(State::Uploaded),
            4 => Some(State::Installed),
            5 => Some(State::DepWait),
            6 => Some(State::BdUninstallable),
            7 => Some(State::Failed),
            8 => Some(State::NotForUs),
            9 => Some(State::BuildAttempted),
            _ => None,
        }
    }

    /// The state's name as wanna-build writes it, such as `Needs-Build`.
    pub fn name(self) -> &'static str
        ensures value { result.now ≡ name_of self }
    {
        match self {
            State::NeedsBuild => "Needs-Build",
            State::Building => "Building",
            State::Built => "Built",
            State::Uploaded => "Uploaded",
            State::Installed => "Installed",
            State::DepWait => "Dep-Wait",
            State::BdUninstallable => "BD-Uninstallable",
            State::Failed => "Failed",
            State::NotForUs => "Not-For-Us",
            State::BuildAttempted => "Build-Attempted",
        }
    }

    /// The state with this name, its letters in just this case, or none if no state has it.
    pub fn of_name(name: &str) -> Option<State>
        ensures value { IfSome result (λ state. name_of state ≡ name.now) }
        ensures refused { IfNone result ((state : State) → name_of state ≢ name.now) }
        ensures found { result ≡ state_named name.now }
    {
        match name {
            "Needs-Build" => Some(State::NeedsBuild),
            "Building" => Some(State::Building),
            "Built" => Some(State::Built),
            "Uploaded" => Some(State::Uploaded),
            "Installed" => Some(State::Installed),
            "Dep-Wait" => Some(State::DepWait),
            "BD-Uninstallable" => Some(State::BdUninstallable),
            "Failed" => Some(State::Failed),
            "Not-For-Us" => Some(State::NotForUs),
            "Build-Attempted" => Some(State::BuildAttempted),
            _ => None,
        }
    }
}
