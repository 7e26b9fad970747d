//! Laws of the definitions, each on a function that does nothing.
ghost use Rattle.std.specs.Prelude.{◌≡◌, ◌≤◌, ℕ, true, List, [], ◌∷◌, Option, Some, None, IfSome, Ok};
ghost use Rattle.std.specs.Prelude.{◌++◌, codes, false, length};
ghost use Rattle.deb_text.specs.Lists.{IsIn, is_nonempty};
ghost use Rattle.wb_states.specs.declared.command.Command.{Command};
ghost use Rattle.wb_states.specs.declared.query.Query.{Query};
ghost use Rattle.wb_states.specs.Machine.{Machine};
ghost use Rattle.wb_keys.specs.declared.access.Shown.{Shown};
ghost use Rattle.wb_keys.specs.declared.fault.LineFault.TheVariants.{AnyoneTwice, AnyoneWithHash};
ghost use Rattle.wb_keys.specs.declared.fault.LineFault.TheVariants.{BadArch, BadBuilder, BadHash};
ghost use Rattle.wb_keys.specs.declared.fault.LineFault.TheVariants.{BadName, HashTwice, NameTwice};
ghost use Rattle.wb_keys.specs.declared.fault.LineFault.TheVariants.{NoRight, UnknownRight};
ghost use Rattle.wb_keys.specs.declared.keys.KeyLine.{KeyLine};
ghost use Rattle.wb_keys.specs.declared.keys.Keys.{Keys};
ghost use Rattle.wb_keys.specs.declared.right.Kind.{Kind};
ghost use Rattle.wb_keys.specs.declared.right.Kind.TheVariants as kind;
ghost use Rattle.wb_keys.specs.declared.right.Right.{Right};
ghost use Rattle.wb_keys.specs.declared.right.Right.TheVariants.{Build, Operate, Port, Read};
ghost use Rattle.wb_keys.specs.Access.{everybody, rights_of};
ghost use Rattle.wb_keys.specs.Examples.{b1_line, bad, zeros};
ghost use Rattle.wb_keys.specs.Key.{is_key_text};
ghost use Rattle.wb_keys.specs.KeyFile.{key_limit, keys_of, line_by_hash, no_keys};
ghost use Rattle.wb_keys.specs.Own.{IsForArch, IsOfBuilder};
ghost use Rattle.wb_keys.specs.Rights.{allows, holder_needed, kind_of, may_ask_for, may_command};
ghost use Rattle.wb_keys.specs.Rights.{may_query, needed_holder, number_of};

/// A command that may be given may be asked for by its kind: what is refused by its path alone
/// would be refused by what its body says.
/// Source: this project's own.
pub fn allowed_commands_may_be_asked_for()
    ensures { (rights : List Right) (machine : Machine) (command : Command)
        → may_command rights machine command ≡ true → may_ask_for rights (kind_of command) ≡ true }
{}

/// Who has a right may ask every query, and the path of a query says so.
/// Source: this project's own.
pub fn queries_are_allowed_by_their_kind()
    ensures { (rights : List Right) (query : Query)
        → may_query rights query ≡ may_ask_for rights kind.Query }
{}

/// Of a command that needs `operate`, such as a merge, the path says whether it is allowed: nothing
/// of its body counts.
/// Source: this project's own.
pub fn commands_of_operators_are_allowed_by_their_kind()
    ensures { (rights : List Right) (machine : Machine) (command : Command)
        → kind_of command ≡ kind.Operator
        → may_command rights machine command ≡ may_ask_for rights kind.Operator }
{}

/// The right `operate` allows everything: each kind of request, each command and each query; and so
/// may everybody in an office without keys, whatever a request shows.
/// Source: this project's own.
pub fn operators_may_everything()
    ensures commands { (rights : List Right) (machine : Machine) (command : Command)
        → IsIn Operate rights → may_command rights machine command ≡ true }
    ensures kinds { (rights : List Right) (kind : Kind)
        → IsIn Operate rights → may_ask_for rights kind ≡ true }
    ensures queries { (rights : List Right) (query : Query)
        → IsIn Operate rights → may_query rights query ≡ true }
    ensures everybody { (shown : Shown) → rights_of everybody shown ≡ Some (Operate ∷ []) }
{}

/// Where no holder is needed, rights decide on a command whoever holds the take number that it
/// reports under; the right `operate` needs none. Where one is needed, it is that of this number.
/// So a command is allowed by the state of an office exactly if it is by the holder that is needed.
/// Source: this project's own.
pub fn holders_count_where_they_are_needed()
    ensures decided { (rights : List Right) (command : Command) (one other : Option (List ℕ))
        → holder_needed rights command ≡ None
        → allows rights one command ≡ allows rights other command }
    ensures operate { (rights : List Right) (command : Command)
        → IsIn Operate rights → holder_needed rights command ≡ None }
    ensures number { (rights : List Right) (command : Command) (take_number : ℕ)
        → holder_needed rights command ≡ Some take_number
        → number_of command ≡ Some take_number }
    ensures machine { (rights : List Right) (machine : Machine) (command : Command)
        → allows rights (needed_holder rights machine command) command
        ≡ may_command rights machine command }
{}

/// The right `build=BUILDER` alone allows no other commands than `next` and `take` in the name of
/// the builder, and reports under take numbers that it holds or nobody holds.
/// Source: this project's own.
pub fn builders_act_for_themselves()
    ensures { (builder : List ℕ) (machine : Machine) (command : Command)
        → may_command (Build builder ∷ []) machine command ≡ true
        → IsOfBuilder builder machine command }
{}

/// The right `port=ARCH` alone allows no other commands than those that move source packages of the
/// architecture.
/// Source: this project's own.
pub fn porters_act_for_their_architecture()
    ensures { (arch : List ℕ) (machine : Machine) (command : Command)
        → may_command (Port arch ∷ []) machine command ≡ true → IsForArch arch command }
{}

/// The lines of a key file that is read: each is the one that is found by its hash, so no two have
/// one hash; no two have one name; each has a right, and so has the line `*`; and there are at most
/// 1000 with a key.
/// Source: this project's own.
pub fn key_files_are_well_formed()
    ensures found { (file : List ℕ) (keys : Keys) (line : KeyLine) → keys_of file ≡ Ok keys
        → IsIn line keys.lines → line_by_hash keys line.hash ≡ Some line }
    ensures names { (file : List ℕ) (keys : Keys) (one other : KeyLine) → keys_of file ≡ Ok keys
        → IsIn one keys.lines → IsIn other keys.lines → one.name ≡ other.name → one ≡ other }
    ensures rights { (file : List ℕ) (keys : Keys) (line : KeyLine) → keys_of file ≡ Ok keys
        → IsIn line keys.lines → is_nonempty line.rights ≡ true }
    ensures anyone { (file : List ℕ) (keys : Keys) → keys_of file ≡ Ok keys
        → IfSome keys.anyone (λ rights. is_nonempty rights ≡ true) }
    ensures limit { (file : List ℕ) (keys : Keys) → keys_of file ≡ Ok keys
        → length keys.lines ≤ key_limit }
{}

/// Examples of key files: lines that are skipped, rights for requests without a key, a line with a
/// key, and faults, each with the number of its line.
/// Source: this project's own.
pub fn examples_of_key_files()
    ensures skipped { keys_of (codes "# b1 read\n\n \t\n") ≡ Ok no_keys }
    ensures anyone { keys_of (codes "*\tread  port=amd64")
        ≡ Ok (record { lines = []; anyone = Some (Read ∷ Port (codes "amd64") ∷ []) }) }
    ensures keyed { keys_of (codes "b1 build=b1" ++ zeros)
        ≡ Ok (record { lines = b1_line ∷ []; anyone = None }) }
    ensures no_hash { keys_of (codes "\nb1 read") ≡ bad 2 BadHash }
    ensures no_right { keys_of (codes "b1" ++ zeros) ≡ bad 1 NoRight }
    ensures unknown { keys_of (codes "* write") ≡ bad 1 UnknownRight }
    ensures builder { keys_of (codes "* build=-") ≡ bad 1 BadBuilder }
    ensures arch { keys_of (codes "* port=all") ≡ bad 1 BadArch }
    ensures name { keys_of (codes "-b read" ++ zeros) ≡ bad 1 BadName }
    ensures name_twice { keys_of (codes "b1 read" ++ zeros ++ codes "\nb1 read" ++ zeros)
        ≡ bad 2 NameTwice }
    ensures hash_twice { keys_of (codes "b1 read" ++ zeros ++ codes "\nb2 read" ++ zeros)
        ≡ bad 2 HashTwice }
    ensures anyone_twice { keys_of (codes "* read\n\n* read") ≡ bad 3 AnyoneTwice }
    ensures anyone_with_hash { keys_of (codes "* read" ++ zeros) ≡ bad 1 AnyoneWithHash }
{}

/// Examples of the form of a key: the least one, one with `=` at its end, and texts that have not
/// the form: a `=` within, `=` alone, a space, and the example of RFC 6750, which is too short
/// here.
/// Source: RFC 6750, section 2.1; the limits are this project's own.
pub fn examples_of_keys()
    ensures least { is_key_text (codes "abcdefghij0123456789") ≡ true }
    ensures ended { is_key_text (codes "-._~+/ABCDEFGHIJKL==") ≡ true }
    ensures within { is_key_text (codes "abcdefghij=123456789") ≡ false }
    ensures alone { is_key_text (codes "====================") ≡ false }
    ensures space { is_key_text (codes "abcdefghij 123456789") ≡ false }
    ensures short { is_key_text (codes "mF_9.B5f-4.1JqM") ≡ false }
{}
