//! The targets of requests (RFC 9112, section 3.2), and the parts of their paths (RFC 3986, section
//! 3.3).
ghost use Rattle.std.specs.Prelude.{◌≡◌, true, OnOk, IfErr, map};
ghost use Rattle.wb_api.specs.Routes.{all_fit, decoded_text, part_at, query_of, route_at, row_of};
ghost use Rattle.wb_api.specs.Routes.{with_all};
ghost use Rattle.matchit.specs.declared.error.InsertError.TheVariants.{OutOfMemory};
ghost use Rattle.wb_api.specs.Outcomes.{GivesOr};
ghost use Rattle.wb_api.specs.Rights.{kind_of_body, kind_of_path};

use crate::failure::RequestError;
use deb_text::Text;
use matchit::{InsertError, Router};
use percent_encoding::{DecodeError, percent_decode};
use std::alloc::Global;
use std::marker::Model;
use wb_keys::Kind;
use wb_states::Query;
use wb_streams::Fault;

/// The commands that a builder or an operator may give over HTTP, each with its own path.
#[derive(Clone, Copy, Debug, PartialEq, Eq)]
pub(crate) enum CommandKind {
    AddArch,
    AddBuilder,
    RemoveArch,
    RemoveBuilder,
    Enter,
    Next,
    Take,
    Built,
    Uploaded,
    Waits,
    PutBack,
    Attempted,
    GiveBack,
    DepWait,
    Fail,
    NotForUs,
    Rebuild,
    BuildPriority,
    Forget,
    Report,
}

/// The queries that may be asked over HTTP, each with its own path.
#[derive(Clone, Copy, Debug, PartialEq, Eq)]
pub(crate) enum QueryKind {
    Queue,
    ByState,
    Item,
    Mine,
    Depends,
    Summary,
    Office,
    Archs,
    Builders,
}

/// What the body of a request gives.
#[derive(Clone, Copy, Debug, PartialEq, Eq)]
pub(crate) enum BodyKind {
    Command(CommandKind),
    /// The names of the lists of a merge.
    Merge,
}

impl CommandKind {
    /// Whom its path is for.
    fn kind(self) -> Kind
        ensures value { result ≡ kind_of_path self }
    {
        match self {
            CommandKind::AddArch
            | CommandKind::AddBuilder
            | CommandKind::RemoveArch
            | CommandKind::RemoveBuilder
            | CommandKind::Enter
            | CommandKind::Forget => Kind::Operator,
            CommandKind::Next
            | CommandKind::Take
            | CommandKind::Built
            | CommandKind::Uploaded
            | CommandKind::Waits
            | CommandKind::PutBack
            | CommandKind::Attempted => Kind::Builder,
            CommandKind::GiveBack
            | CommandKind::DepWait
            | CommandKind::Fail
            | CommandKind::NotForUs
            | CommandKind::Rebuild
            | CommandKind::BuildPriority
            | CommandKind::Report => Kind::Porter,
        }
    }
}

impl BodyKind {
    /// Whom its path is for.
    pub(crate) fn kind(self) -> Kind
        ensures value { result ≡ kind_of_body self }
    {
        match self {
            BodyKind::Command(command) => command.kind(),
            BodyKind::Merge => Kind::Operator,
        }
    }
}

/// What a target is for.
#[derive(Clone, Copy, Debug, PartialEq, Eq)]
pub(crate) enum Route {
    Command(CommandKind),
    Query(QueryKind),
    /// A merge, which is served only with lists.
    Merge,
}

/// The paths, as `matchit` reads them, and what each is for.
static TABLE: [(&str, Route); 30] = [
    ("/v1/add-arch", Route::Command(CommandKind::AddArch)),
    ("/v1/add-builder", Route::Command(CommandKind::AddBuilder)),
    ("/v1/remove-arch", Route::Command(CommandKind::RemoveArch)),
    (
        "/v1/remove-builder",
        Route::Command(CommandKind::RemoveBuilder),
    ),
    ("/v1/enter", Route::Command(CommandKind::Enter)),
    ("/v1/next", Route::Command(CommandKind::Next)),
    ("/v1/take", Route::Command(CommandKind::Take)),
    ("/v1/built", Route::Command(CommandKind::Built)),
    ("/v1/uploaded", Route::Command(CommandKind::Uploaded)),
    ("/v1/waits", Route::Command(CommandKind::Waits)),
    ("/v1/put-back", Route::Command(CommandKind::PutBack)),
    ("/v1/attempted", Route::Command(CommandKind::Attempted)),
    ("/v1/give-back", Route::Command(CommandKind::GiveBack)),
    ("/v1/dep-wait", Route::Command(CommandKind::DepWait)),
    ("/v1/fail", Route::Command(CommandKind::Fail)),
    ("/v1/not-for-us", Route::Command(CommandKind::NotForUs)),
    ("/v1/rebuild", Route::Command(CommandKind::Rebuild)),
    (
        "/v1/build-priority",
        Route::Command(CommandKind::BuildPriority),
    ),
    ("/v1/forget", Route::Command(CommandKind::Forget)),
    ("/v1/report", Route::Command(CommandKind::Report)),
    ("/v1/merge", Route::Merge),
    ("/v1/queue/{arch}", Route::Query(QueryKind::Queue)),
    ("/v1/state/{arch}/{state}", Route::Query(QueryKind::ByState)),
    ("/v1/item/{arch}/{source}", Route::Query(QueryKind::Item)),
    ("/v1/mine/{builder}", Route::Query(QueryKind::Mine)),
    (
        "/v1/depends/{arch}/{source}",
        Route::Query(QueryKind::Depends),
    ),
    ("/v1/summary/{arch}", Route::Query(QueryKind::Summary)),
    ("/v1/office", Route::Query(QueryKind::Office)),
    ("/v1/archs", Route::Query(QueryKind::Archs)),
    ("/v1/builders", Route::Query(QueryKind::Builders)),
];

/// Adds the paths of a table to a router. The errors are those of `matchit` for a path that cannot
/// be read or conflicts with another, and that there is no memory.
fn insert_all(router: &mut Router<Route>, table: &[(&str, Route)]) -> Result<(), InsertError>
    ensures value { OnOk result (router.new ≡ with_all router.old (map row_of table.now)) }
    ensures err { all_fit router.old (map row_of table.now) ≡ true → IfErr result (λ error. error ≡ OutOfMemory) }
{
    match table {
        [] => Ok(()),
        [(path, route), rest @ ..] => {
            router.insert(path, *route)?;
            insert_all(router, rest)
        }
    }
}

/// The paths that are served and what each is for, as one router. It is made once and lent to each
/// exchange, so that no request needs memory to find what it is for. Source: this project's own.
#[derive(Drop)]
pub struct Routes {
    router: Router<Route>,
}

impl Model for Routes {
    ghost use Rattle.std.specs.Prelude.{◌≡◌};
    ghost use Rattle.wb_api.specs.Routes.{routes};
    ghost use Rattle.matchit.specs.Rows.{RowsOf};
    ghost use Rattle.matchit.specs.Router.{RouteOf};
    ghost use Rattle.wb_api.specs.declared.route.Route.{Route as AnyRoute};

    ghost Value = { RowsOf (RouteOf AnyRoute) };

    ghost view = { λ r. r.router };

    ghost invariant = { λ r. r.router ≡ routes };
}

impl Routes {
    /// The router of all paths. The only error is that there is no memory for it.
    /// Source: this project's own.
    pub fn new(alloc: Global) -> Result<Routes, InsertError>
        ensures err { IfErr result (λ error. error ≡ OutOfMemory) }
    {
        let mut router = Router::new(alloc);
        match insert_all(&mut router, &TABLE) {
            Ok(()) => Ok(Routes { router }),
            Err(error) => Err(error),
        }
    }

    // `route_at` says in this project's own words what a target is for, and a law says that
    // `matchit`'s definition, on the router of the table, finds the same for every target.
    /// What a target is for: `None` if it is none that is served. Takes no memory.
    pub(crate) fn at(&self, target: &str) -> Option<Route>
        ensures value { result ≡ route_at target.now }
    {
        match self.router.at(target) {
            Ok(found) => Some(*found.value),
            Err(_) => None,
        }
    }
}

// Cut at the slashes, and not taken of `matchit`'s `Params::get`, which states what it gives only
// where each part is UTF-8: a caller would have to prove that of the router's walk.
/// The part of a target after so many slashes, as it is written; it is empty if there are not so
/// many.
fn part_at(target: &str, count: usize) -> &str
    ensures value { result.now ≡ part_at target.now count }
{
    target.split('/').nth(count).unwrap_or("")
}

/// A part of a path, decoded once. The errors are that it is no UTF-8 then, and that memory ran
/// out.
fn decoded(alloc: Global, part: &[u8]) -> Result<Text, RequestError>
    ensures value { GivesOr result (decoded_text part.now) }
{
    match percent_decode(part).decode_utf8(alloc) {
        Ok(text) => Ok(Text::from(text.into_owned(alloc)?)),
        Err(DecodeError::OutOfMemory) => Err(RequestError::Memory),
        Err(DecodeError::Utf8(_)) => Err(RequestError::Fault(Fault::BadPath)),
    }
}

/// The query of this kind that a target asks.
#[tactic(auto, unfolding(crate::specs::Routes::query_of))]
pub(crate) fn query_of(alloc: Global, kind: QueryKind, target: &str) -> Result<Query, RequestError>
    ensures value { GivesOr result (query_of kind target.now) }
{
    let first = decoded(alloc, part_at(target, 3).as_bytes())?;
    match kind {
        QueryKind::Queue => Ok(Query::Queue { arch: first }),
        QueryKind::ByState => {
            let state = decoded(alloc, part_at(target, 4).as_bytes())?;
            Ok(Query::ByState { arch: first, state })
        }
        QueryKind::Item => {
            let source = decoded(alloc, part_at(target, 4).as_bytes())?;
            Ok(Query::Item {
                arch: first,
                source,
            })
        }
        QueryKind::Mine => Ok(Query::Mine { builder: first }),
        QueryKind::Depends => {
            let source = decoded(alloc, part_at(target, 4).as_bytes())?;
            Ok(Query::Depends {
                arch: first,
                source,
            })
        }
        QueryKind::Summary => Ok(Query::Summary { arch: first }),
        QueryKind::Office => Ok(Query::Office),
        QueryKind::Archs => Ok(Query::Archs),
        QueryKind::Builders => Ok(Query::Builders),
    }
}
