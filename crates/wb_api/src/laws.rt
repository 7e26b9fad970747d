//! Laws of the definitions, each on a function with nothing to run.
ghost use Rattle.std.specs.Prelude.{ℕ, ◌<◌, List, [], ◌∷◌, get_or, ◌≡◌, ◌++◌, pos, neg_ℤ};
ghost use Rattle.std.specs.Prelude.{codes, false, IfSome, is_some, map, Option, replicate, true};
ghost use Rattle.std.specs.Prelude.{None, Some, Ok, Err};
ghost use Rattle.deb_text.specs.Lines.{IsOneLine};
ghost use Rattle.wb_states.specs.declared.refusal.Refusal.{Refusal as AnyRefusal};
ghost use Rattle.wb_states.specs.declared.reply.Reply.{Reply as AnyReply};
ghost use Rattle.wb_states.specs.declared.query.Answer.{Answer};
ghost use Rattle.wb_api.specs.Queries.{query_text};
ghost use Rattle.wb_api.specs.Encoding.{reply_text, refusal_text, memory_text, line_fault_text};
ghost use Rattle.wb_api.specs.Encoding.{file_fault_text};
ghost use Rattle.httparse.specs.Grammar.{RequestHead};
ghost use Rattle.httparse.specs.Spans.{name_and_value};
ghost use Rattle.wb_states.specs.Forms.{AddArch, AddBuilder, Attempted, BuildPriority, Enter};
ghost use Rattle.wb_states.specs.Forms.{Forget, RemoveArch, RemoveBuilder, Report};
ghost use Rattle.serde_json.specs.Data.{Data};
ghost use Rattle.wb_api.specs.Commands.{command_in, value_in};
ghost use Rattle.wb_api.specs.Keys.{has_keys, keys_of};
ghost use Rattle.wb_api.specs.declared.route.CommandKind.{CommandKind as AnyKind};
ghost use Rattle.wb_api.specs.Merges.{merge, merge_body, part};
ghost use Rattle.wb_keys.specs.declared.access.Access.{Access as AnyAccess};
ghost use Rattle.wb_keys.specs.declared.access.Shown.{Shown as AnyShown};
ghost use Rattle.wb_api.specs.Requests.{Answers, asked_with, beside_lists, field, got, got_with};
ghost use Rattle.wb_api.specs.Requests.{head_of, IsHead};
ghost use Rattle.wb_api.specs.Requests.{MeansWith, posted, posted_beside_lists, posted_with};
ghost use Rattle.wb_api.specs.Requests.{TakesMemory, wanted_of_with};
ghost use Rattle.wb_streams.specs.Fields.{is_from_browser};
ghost use Rattle.wb_streams.specs.declared.fault.Fault.TheVariants.{BadBody, BadHead, BadPath};
ghost use Rattle.wb_streams.specs.declared.fault.Fault.TheVariants.{BodyCut, FromBrowser, NoRoute};
ghost use Rattle.wb_streams.specs.declared.fault.Fault.TheVariants.{WrongMethod};
ghost use Rattle.wb_streams.specs.declared.fault.Fault.{Fault as AnyFault};
ghost use Rattle.wb_api.specs.declared.request.Received.{Received as AnyReceived};
ghost use Rattle.wb_api.specs.declared.request.Received.TheVariants.{Asked, Memory, Refused};
ghost use Rattle.wb_api.specs.declared.request.Request.{Request as AnyRequest};
ghost use Rattle.wb_api.specs.declared.request.Request.TheVariants.{Command, Merge, Query};
ghost use Rattle.wb_api.specs.declared.service.Service.{Service as AnyService};
ghost use Rattle.wb_states.specs.declared.query.Query.TheVariants as query;
ghost use Rattle.wb_states.specs.Machine.{IsConsistent, Key, Machine};
ghost use Rattle.wb_states.specs.declared.command.Command.{Command as AnyCommand};
ghost use Rattle.wb_step.specs.Offices.{IsSoOfEach, Open, Standing};
ghost use Rattle.wb_step.specs.Replay.{replay};
ghost use Rattle.sha2.specs.Sha256.{sha256};
ghost use Rattle.wb_keys.specs.Access.{everybody};
ghost use Rattle.wb_keys.specs.Rights.{kind_of, may_ask_for, may_command};
ghost use Rattle.wb_keys.specs.declared.access.Shown.TheVariants.{Hash, Malformed, Nothing};
ghost use Rattle.wb_keys.specs.declared.right.Right.{Right};
ghost use Rattle.wb_keys.specs.declared.right.Right.TheVariants.{Build};
ghost use Rattle.wb_step.specs.Step.{step};
ghost use Rattle.wb_api.specs.Own.{AreByBuilder, ChangesHeld, ChangesOwn, ChangesOwnInTurn};
ghost use Rattle.wb_api.specs.Exchange.{ExchangesWith};
ghost use Rattle.wb_api.specs.Rights.{is_allowed, kind_of_path, shown_by};
ghost use Rattle.wb_api.specs.declared.serve.Served.{Served as AnyServed};
ghost use Rattle.wb_api.specs.Routes.{route_at, routed};
ghost use Rattle.wb_api.specs.Runs.{AreAccepted, Exchange, Serves, states_after};

use wb_lists::Lists;
use wb_step::CarryOut;

/// No line feed stands in an answer, whatever texts it carries: an answer is one line (RFC 8259,
/// section 7).
pub fn answers_are_one_line()
    ensures reply { (name : List ℕ) (reply : AnyReply) → IsOneLine (reply_text name reply) }
    ensures refusal { (refusal : AnyRefusal) → IsOneLine (refusal_text refusal) }
    ensures query { (answer : Answer) → IsOneLine (query_text answer) }
    ensures faults { IsOneLine memory_text
        × (IsOneLine line_fault_text × IsOneLine file_fault_text) }
{}

/// An input that begins with a head within the limits is received as what this head and the bytes
/// after it ask for, or as their first fault, and in no other way unless a read failed or memory
/// ran out (RFC 9112, section 2.1), whatever is served and to whom.
pub fn a_head_decides()
    ensures value { (service : AnyService) (input : List ℕ) (head : RequestHead) (rest : List ℕ)
        (received : AnyReceived) → IsHead input head rest → MeansWith service input received
        → Answers (asked_with service head rest) received }
    // memory runs out only if what the head asks for takes some
    ensures memory { (service : AnyService) (input : List ℕ) (head : RequestHead) (rest : List ℕ)
        → IsHead input head rest → MeansWith service input Memory
        → TakesMemory (wanted_of_with service head) }
{}

/// What follows a request plays no part: a request is the same request with any bytes after it, and
/// so is the fault of one, unless it is that the input ended within the head or the body (RFC 9112,
/// section 6.3).
pub fn what_follows_plays_no_part()
    ensures asked { (service : AnyService) (input more : List ℕ) (shown : AnyShown) (request : AnyRequest)
        → MeansWith service input (Asked shown request)
        → MeansWith service (input ++ more) (Asked shown request) }
    ensures refused { (service : AnyService) (input more : List ℕ) (fault : AnyFault)
        → ¬ (fault ≡ BodyCut) → ¬ (fault ≡ BadHead)
        → MeansWith service input (Refused fault) → MeansWith service (input ++ more) (Refused fault) }
{}

/// The router finds for each target what the target is for: a path alone, or a path and as many
/// parts as it has, with slashes between them and none of them empty (RFC 3986, section 3.3). It
/// finds nothing for any other target.
pub fn the_router_finds_each_target()
    ensures value { (target : List ℕ) → ((i : ℕ) → get_or target i 0 < 256)
        → routed target ≡ route_at target }
{}

/// A GET of a query's path is that query, about the parts of the path, each decoded once (RFC 3986,
/// section 2.1). A path with another number of parts is no path of a query, and neither is one with
/// an empty part.
pub fn gets_are_queries()
    // lists
    ensures queue { got (codes "/v1/queue/amd64") ≡ Ok (Query (query.Queue (codes "amd64"))) }
    ensures state { got (codes "/v1/state/amd64/Dep-Wait")
        ≡ Ok (Query (query.ByState (codes "amd64") (codes "Dep-Wait"))) }
    ensures mine { got (codes "/v1/mine/b1") ≡ Ok (Query (query.Mine (codes "b1"))) }
    // one source package, and counts
    ensures item { got (codes "/v1/item/amd64/g%2B%2B-13")
        ≡ Ok (Query (query.Item (codes "amd64") (codes "g++-13"))) }
    ensures depends { got (codes "/v1/depends/amd64/hello")
        ≡ Ok (Query (query.Depends (codes "amd64") (codes "hello"))) }
    ensures summary { got (codes "/v1/summary/amd64") ≡ Ok (Query (query.Summary (codes "amd64"))) }
    // the office
    ensures office { got (codes "/v1/office") ≡ Ok (Query query.Office) }
    ensures archs { got (codes "/v1/archs") ≡ Ok (Query query.Archs) }
    ensures builders { got (codes "/v1/builders") ≡ Ok (Query query.Builders) }
    // other requests
    ensures empty_part { got (codes "/v1/queue/") ≡ Err NoRoute }
    ensures part_missing { got (codes "/v1/item/amd64") ≡ Err NoRoute }
    ensures part_over { got (codes "/v1/summary/amd64/hello") ≡ Err NoRoute }
    ensures part_of_none { got (codes "/v1/builders/b1") ≡ Err NoRoute }
    ensures not_text { got (codes "/v1/item/amd64/%ff") ≡ Err BadPath }
    ensures get_of_command { got (codes "/v1/next") ≡ Err WrongMethod }
    ensures post_of_query { posted (codes "/v1/queue/amd64") (codes "{}") ≡ Err WrongMethod }
{}

/// What adds an architecture, a builder and a source package, what takes one of them away, the
/// report of a failed build, a build priority and the report of a whole architecture are commands,
/// each with its own path and keys.
pub fn posts_are_commands()
    // an architecture with the words of its system and its processor
    ensures add_arch { posted (codes "/v1/add-arch")
        (codes "{\"name\":\"armhf\",\"os\":\"linux\",\"cpu\":\"arm\"}")
        ≡ Ok (Command (AddArch (codes "armhf") (codes "linux") (codes "arm"))) }
    ensures no_cpu { posted (codes "/v1/add-arch") (codes "{\"name\":\"armhf\",\"os\":\"linux\"}")
        ≡ Err BadBody }
    // a builder for an architecture
    ensures add_builder { posted (codes "/v1/add-builder")
        (codes "{\"name\":\"b1\",\"arch\":\"amd64\"}")
        ≡ Ok (Command (AddBuilder (codes "b1") (codes "amd64"))) }
    ensures no_name { posted (codes "/v1/add-builder")
        (codes "{\"builder\":\"b1\",\"arch\":\"amd64\"}") ≡ Err BadBody }
    // the name of an architecture
    ensures remove_arch { posted (codes "/v1/remove-arch") (codes "{\"name\":\"armhf\"}")
        ≡ Ok (Command (RemoveArch (codes "armhf"))) }
    ensures no_name_of_arch { posted (codes "/v1/remove-arch") (codes "{\"arch\":\"armhf\"}")
        ≡ Err BadBody }
    // a builder and an architecture for which it was added
    ensures remove_builder { posted (codes "/v1/remove-builder")
        (codes "{\"name\":\"b1\",\"arch\":\"amd64\"}")
        ≡ Ok (Command (RemoveBuilder (codes "b1") (codes "amd64"))) }
    ensures no_arch { posted (codes "/v1/remove-builder") (codes "{\"name\":\"b1\"}")
        ≡ Err BadBody }
    // a source package on an architecture, its version, its priority and its section
    ensures enter { posted (codes "/v1/enter")
        (codes "{\"arch\":\"amd64\",\"source\":\"hello\",\"version\":\"1.0-1\","
        ++ codes "\"priority\":\"optional\",\"section\":\"devel\"}")
        ≡ Ok (Command (Enter (codes "amd64") (codes "hello") (codes "1.0-1")
        (codes "optional") (codes "devel"))) }
    ensures no_section { posted (codes "/v1/enter")
        (codes "{\"arch\":\"amd64\",\"source\":\"hello\",\"version\":\"1.0-1\","
        ++ codes "\"priority\":\"optional\"}") ≡ Err BadBody }
    // a take number, and a reason, which may be empty
    ensures attempted { posted (codes "/v1/attempted") (codes "{\"take\":7,\"reason\":\"no -lm\"}")
        ≡ Ok (Command (Attempted 7 (codes "no -lm"))) }
    ensures no_words { posted (codes "/v1/attempted") (codes "{\"reason\":\"\",\"take\":7}")
        ≡ Ok (Command (Attempted 7 (codes ""))) }
    ensures no_reason { posted (codes "/v1/attempted") (codes "{\"take\":7}") ≡ Err BadBody }
    // a source package on an architecture, its version, and a value
    ensures build_priority { posted (codes "/v1/build-priority")
        (codes "{\"arch\":\"amd64\",\"source\":\"hello\",\"version\":\"1.0-1\",\"value\":-5}")
        ≡ Ok (Command (BuildPriority (codes "amd64") (codes "hello") (codes "1.0-1") (neg_ℤ (pos 5)))) }
    ensures no_value { posted (codes "/v1/build-priority")
        (codes "{\"arch\":\"amd64\",\"source\":\"hello\",\"version\":\"1.0-1\"}") ≡ Err BadBody }
    // a source package on an architecture, and its version
    ensures forget { posted (codes "/v1/forget")
        (codes "{\"arch\":\"amd64\",\"source\":\"hello\",\"version\":\"1.0-1\"}")
        ≡ Ok (Command (Forget (codes "amd64") (codes "hello") (codes "1.0-1"))) }
    ensures no_version { posted (codes "/v1/forget")
        (codes "{\"arch\":\"amd64\",\"source\":\"hello\"}") ≡ Err BadBody }
    // an architecture, and the lines of a report, of which there may be none
    ensures report { posted (codes "/v1/report")
        (codes "{\"arch\":\"amd64\",\"text\":\"hello 1.0-1 installable\\n\"}")
        ≡ Ok (Command (Report (codes "amd64") (codes "hello 1.0-1 installable\n"))) }
    ensures no_lines { posted (codes "/v1/report") (codes "{\"text\":\"\",\"arch\":\"amd64\"}")
        ≡ Ok (Command (Report (codes "amd64") (codes ""))) }
    ensures no_text { posted (codes "/v1/report") (codes "{\"arch\":\"amd64\"}") ≡ Err BadBody }
{}

/// A POST of the path of a merge, where lists are served, is the merge that its body names: one
/// part or more, in their order, each with an architecture and the name of its Packages list, and
/// the name of the Sources list. A name that is empty or longer than 255 bytes, has a slash, or
/// begins with a dot is no name of a list. Where no lists are served there is no such path.
pub fn merges_name_lists()
    // one part, and two in their order; further keys are ignored
    ensures one { posted_beside_lists (codes "/v1/merge")
        (codes "{\"parts\":[{\"arch\":\"amd64\",\"packages\":\"Packages-amd64\"}],"
        ++ codes "\"sources\":\"Sources\"}")
        ≡ Ok (Merge (merge (part (codes "amd64") (codes "Packages-amd64") ∷ [])
        (codes "Sources"))) }
    ensures two { posted_beside_lists (codes "/v1/merge")
        (codes "{\"parts\":[{\"arch\":\"i386\",\"packages\":\"p2\"},"
        ++ codes "{\"arch\":\"amd64\",\"packages\":\"p1\"}],\"sources\":\"s\"}")
        ≡ Ok (Merge (merge (part (codes "i386") (codes "p2")
        ∷ part (codes "amd64") (codes "p1") ∷ []) (codes "s"))) }
    ensures further { posted_beside_lists (codes "/v1/merge")
        (codes "{\"at\":1,\"parts\":[{\"arch\":\"amd64\",\"at\":2,\"packages\":\"p\"}],"
        ++ codes "\"sources\":\"s\"}")
        ≡ Ok (Merge (merge (part (codes "amd64") (codes "p") ∷ []) (codes "s"))) }
    // no part, or something else in place of the parts
    ensures no_part { posted_beside_lists (codes "/v1/merge")
        (codes "{\"parts\":[],\"sources\":\"s\"}") ≡ Err BadBody }
    ensures no_parts { posted_beside_lists (codes "/v1/merge")
        (codes "{\"sources\":\"s\"}") ≡ Err BadBody }
    ensures no_array { posted_beside_lists (codes "/v1/merge")
        (codes "{\"parts\":{\"arch\":\"amd64\",\"packages\":\"p\"},\"sources\":\"s\"}")
        ≡ Err BadBody }
    ensures no_arch { posted_beside_lists (codes "/v1/merge")
        (codes "{\"parts\":[{\"packages\":\"p\"}],\"sources\":\"s\"}") ≡ Err BadBody }
    ensures no_sources { posted_beside_lists (codes "/v1/merge")
        (codes "{\"parts\":[{\"arch\":\"amd64\",\"packages\":\"p\"}]}") ≡ Err BadBody }
    // names of lists
    ensures longest { posted_beside_lists (codes "/v1/merge")
        (merge_body (codes "p") (replicate 255 115))
        ≡ Ok (Merge (merge (part (codes "amd64") (codes "p") ∷ []) (replicate 255 115))) }
    ensures long { posted_beside_lists (codes "/v1/merge")
        (merge_body (codes "p") (replicate 256 115)) ≡ Err BadBody }
    ensures empty { posted_beside_lists (codes "/v1/merge")
        (merge_body (codes "p") (codes "")) ≡ Err BadBody }
    ensures slash { posted_beside_lists (codes "/v1/merge")
        (merge_body (codes "p") (codes "lists/s")) ≡ Err BadBody }
    ensures slash_of_part { posted_beside_lists (codes "/v1/merge")
        (merge_body (codes "p/") (codes "s")) ≡ Err BadBody }
    ensures dot { posted_beside_lists (codes "/v1/merge")
        (merge_body (codes "p") (codes "..")) ≡ Err BadBody }
    ensures dot_of_part { posted_beside_lists (codes "/v1/merge")
        (merge_body (codes ".p") (codes "s")) ≡ Err BadBody }
    ensures inner_dot { posted_beside_lists (codes "/v1/merge")
        (merge_body (codes "p.") (codes "s"))
        ≡ Ok (Merge (merge (part (codes "amd64") (codes "p.") ∷ []) (codes "s"))) }
    // other requests
    ensures get_of_merge { asked_with beside_lists (head_of (codes "GET") (codes "/v1/merge") []) []
        ≡ Err WrongMethod }
    ensures other_path { posted_beside_lists (codes "/v1/merge/s")
        (merge_body (codes "p") (codes "s")) ≡ Err NoRoute }
    ensures without_lists { posted (codes "/v1/merge")
        (merge_body (codes "p") (codes "s")) ≡ Err NoRoute }
{}

/// A body gives only commands of the kind for which the rights are asked by its path, before it is
/// read: who has no right for the kind has none for what a body may ask for.
pub fn paths_say_the_kind()
    ensures commands { (kind : AnyKind) (body : Data) → IfSome (command_in kind body)
        (λ command. kind_of command ≡ kind_of_path kind) }
    ensures refused { (rights : List Right) (machine : Machine) (kind : AnyKind) (body : Data)
        → may_ask_for rights (kind_of_path kind) ≡ false → IfSome (command_in kind body)
        (λ command. may_command rights machine command ≡ false) }
{}

/// An exchange has the office do what its request asks for only if the line of its key has a right
/// for it, by who holds a take number before. After each other answer the office is as it was.
/// Where no keys are asked for, everybody has every right.
pub fn only_what_is_allowed_is_done<L: Lists>()
    ensures done { (access : AnyAccess) (lists : L) (shown : AnyShown) (asked : AnyRequest)
        (before after : Machine) (standing : Standing) (old new : Option (List ℕ)) (ended : AnyServed)
        → ExchangesWith access (L.may_read lists) (Asked shown asked) before after standing old new ended
        → ¬ (after ≡ before) → is_allowed access shown before asked ≡ true }
    ensures refused { (access : AnyAccess) (lists : L) (fault : AnyFault)
        (before after : Machine) (standing : Standing) (old new : Option (List ℕ)) (ended : AnyServed)
        → ExchangesWith access (L.may_read lists) (Refused fault) before after standing old new ended
        → (after ≡ before) × (standing ≡ Open) }
    ensures everybody { (shown : AnyShown) (machine : Machine) (asked : AnyRequest)
        → is_allowed everybody shown machine asked ≡ true }
{}

/// The key of a builder alone changes no record but one that the builder held before the command,
/// or is handed by it and so holds after it, whatever is asked: in a consistent office, as each one
/// is that stands at a state. So it is of each exchange of a run whose requests all show such keys,
/// and a record that the builder holds at no state of the run stays what it was. If the store
/// failed at the last command, both are so with this command and without it.
pub fn builders_change_what_they_hold<L: Lists>()
    // one command
    ensures step { (builder : List ℕ) (machine : Machine) (command : AnyCommand) (key : Key)
        → IsConsistent machine → may_command (Build builder ∷ []) machine command ≡ true
        → ChangesOwn builder machine (step machine command).1 key }
    // each exchange of a run, and all of them
    ensures each { (access : AnyAccess) (lists : L) (builder : List ℕ) (exchanges : List Exchange)
        (before after : Machine) (standing : Standing) (key : Key)
        (served : Serves access (L.may_read lists) exchanges before after standing)
        → IsConsistent before → AreByBuilder access builder exchanges
        → ChangesOwnInTurn builder before
        (states_after access (L.may_read lists) exchanges before after standing served) key }
    ensures run { (access : AnyAccess) (lists : L) (builder : List ℕ) (exchanges : List Exchange)
        (before after : Machine) (standing : Standing) (key : Key)
        (served : Serves access (L.may_read lists) exchanges before after standing)
        → IsConsistent before → AreByBuilder access builder exchanges
        → IsSoOfEach (λ found. ChangesHeld builder (before
        ∷ states_after access (L.may_read lists) exchanges before after standing served)
        before found key) after standing }
{}

/// By examples: what the field of a key shows (RFC 6750, section 2.1). The scheme is read in
/// whatever letters, with one space or more behind it (RFC 9110, section 11.1).
pub fn fields_show_keys()
    ensures none { shown_by ((codes "host", codes "a") ∷ []) ≡ Nothing }
    ensures key { shown_by ((codes "Authorization", codes "Bearer 0123456789abcdefghij") ∷ [])
        ≡ Hash (sha256 (codes "0123456789abcdefghij")) }
    ensures spaces { shown_by ((codes "authorization", codes "BEARER   0123456789abcdefghi=") ∷ [])
        ≡ Hash (sha256 (codes "0123456789abcdefghi=")) }
    ensures short { shown_by ((codes "authorization", codes "Bearer 0123456789abcdefghi") ∷ [])
        ≡ Malformed }
    ensures space_within { shown_by ((codes "authorization", codes "Bearer 0123456789 abcdefghij") ∷ [])
        ≡ Malformed }
    ensures no_space { shown_by ((codes "authorization", codes "Bearer0123456789abcdefghij") ∷ [])
        ≡ Malformed }
    ensures other_scheme { shown_by ((codes "authorization", codes "Basic 0123456789abcdefghij") ∷ [])
        ≡ Malformed }
    ensures twice { shown_by ((codes "authorization", codes "Bearer 0123456789abcdefghij")
        ∷ (codes "AUTHORIZATION", codes "Bearer 0123456789abcdefghij") ∷ []) ≡ Malformed }
{}

/// A body gives a command exactly if it has each key of the table for its path, with what that has
/// to have.
pub fn commands_are_read_by_their_keys()
    ensures value { (kind : AnyKind) (body : Data) → is_some (command_in kind body) ≡ has_keys (keys_of kind) body }
{}

/// A request that a web page had its browser send asks for nothing, whatever its method, its target
/// and its body are: one with an `Origin` field (RFC 6454, section 7), or with a `Sec-Fetch-Site`
/// field of another value than `none` (Fetch Metadata Request Headers, section 2.3). Names of
/// fields compare without case, the value does not.
pub fn pages_ask_for_nothing()
    ensures value { (service : AnyService) (head : RequestHead) (rest : List ℕ)
        → is_from_browser (map name_and_value head.fields) ≡ true
        → asked_with service head rest ≡ Err FromBrowser }
    // a form of a page, and what a page fetches; a fault of the target comes later
    ensures form { posted_with (field (codes "Origin") (codes "null") ∷ []) (codes "/v1/built")
        (codes "{\"take\":1}") ≡ Err FromBrowser }
    ensures fetched { got_with (field (codes "sec-fetch-site") (codes "same-origin") ∷ [])
        (codes "/v1/summary/amd64") ≡ Err FromBrowser }
    ensures first { got_with (field (codes "ORIGIN") (codes "http://127.0.0.1") ∷ []) (codes "/")
        ≡ Err FromBrowser }
    ensures other_case { got_with (field (codes "Sec-Fetch-Site") (codes "None") ∷ [])
        (codes "/v1/summary/amd64") ≡ Err FromBrowser }
    // an address that a person types
    ensures typed { got_with (field (codes "Sec-Fetch-Site") (codes "none") ∷ [])
        (codes "/v1/summary/amd64") ≡ Ok (Query (query.Summary (codes "amd64"))) }
{}

/// The value of a build priority is an integer from -2^63 to 2^63 - 1, in digits alone or after a
/// minus sign. No other value is read: not -0, no fraction, no exponent, no text, not null, and not
/// what is missing.
pub fn values_are_integers()
    // integers
    ensures positive { value_in (codes "{\"value\":5}") ≡ Some (pos 5) }
    ensures minus { value_in (codes "{\"value\":-5}") ≡ Some (neg_ℤ (pos 5)) }
    ensures nought { value_in (codes "{\"value\":0}") ≡ Some (pos 0) }
    ensures greatest { value_in (codes "{\"value\":9223372036854775807}") ≡ Some (pos 9223372036854775807) }
    ensures least { value_in (codes "{\"value\":-9223372036854775808}")
        ≡ Some (neg_ℤ (pos 9223372036854775808)) }
    // other values
    ensures too_great { value_in (codes "{\"value\":9223372036854775808}") ≡ None }
    ensures too_small { value_in (codes "{\"value\":-9223372036854775809}") ≡ None }
    ensures minus_nought { value_in (codes "{\"value\":-0}") ≡ None }
    ensures fraction { value_in (codes "{\"value\":5.0}") ≡ None }
    ensures exponent { value_in (codes "{\"value\":1e3}") ≡ None }
    ensures text { value_in (codes "{\"value\":\"5\"}") ≡ None }
    ensures null_value { value_in (codes "{\"value\":null}") ≡ None }
    ensures missing { value_in (codes "{\"values\":5}") ≡ None }
{}

/// A run of exchanges leaves what the commands that it accepted leave one after another, and each
/// command that was answered with status 200, or with a front of such an answer, is among them. A
/// merge is that of what its lists may be read as.
pub fn runs_leave_what_was_accepted<O: CarryOut, L: Lists>()
    ensures replay { (access : AnyAccess) (lists : L) (exchanges : List Exchange) (before after : Machine) (standing : Standing)
        → Serves access (L.may_read lists) exchanges before after standing
        → (commands : List AnyCommand) × AreAccepted (L.may_read lists) before exchanges commands
        × (after ≡ replay before commands) }
{}
