ghost use Rattle.std.specs.Prelude.{◌≡◌, ◌↔◌, ◌⊎◌, ◌<◌, ◌≤◌, ◌++◌, ℕ, Bool, IsTrue, not, List, [], length, take, Some, None, Ok, Err};
ghost use Rattle.imap_grammar.specs.Bounds.{IsWithinBounds};
ghost use Rattle.imap_grammar.specs.Grammar.{Tagged, IsAstring, IsCommand};
ghost use Rattle.imap_grammar.specs.Places.{BeginsCommand, IsPlace, HasAllowedWord, HasOpenWord, EndsInWord};
ghost use Rattle.imap_grammar.specs.Printing.{is_printable_text, printed};
ghost use Rattle.imap_grammar.specs.Progressing.{max_text, progress_in, command_in};
ghost use Rattle.imap_grammar.specs.Requests.{Request, whole_at};
ghost use Rattle.imap_grammar.specs.declared.command.Command.{Command};
ghost use Rattle.imap_grammar.specs.declared.command.CommandFault.TheVariants.{Syntax};
ghost use Rattle.imap_grammar.specs.declared.progress.Progress.{Progress};
ghost use Rattle.imap_grammar.specs.declared.progress.Progress.TheVariants.{Whole};

/// A law: the printed form of a name is a name of the grammar, and names the same bytes. The name
/// has only printing ASCII and spaces, or at most as many bytes as a literal may have.
pub fn a_printed_name_reads_back()
    ensures printable { (name : List ℕ) → IsTrue (is_printable_text name)
        → IsAstring (printed name) name }
    ensures any { (name : List ℕ) → length name ≤ 9999999999 → IsAstring (printed name) name }
{}

/// A law: the reading of a text gives a command exactly if the text is that command of the grammar,
/// and text and message are not too large. `n` is the length of the tag.
pub fn a_reading_is_the_grammar()
    ensures progress { (login : Bool) (text : List ℕ) (command : Command) (n : ℕ)
        → (progress_in login text ≡ Ok (Whole command n))
        ↔ (IsCommand login text (record { tag = take n text; command = command })
        × (n ≤ length text) × IsWithinBounds text command) }
    ensures command { (login : Bool) (text : List ℕ) (command : Command)
        → (command_in login text ≡ Ok command)
        ↔ ((tag : List ℕ) × IsCommand login text (record { tag = tag; command = command })
        × IsWithinBounds text command) }
{}

/// A law: a text is at most one command.
pub fn each_text_is_one_command()
    ensures { (login : Bool) (text : List ℕ) (one other : Tagged) → IsCommand login text one
        → IsCommand login text other → one ≡ other }
{}

/// A law: no bytes are no request, and after any bytes of a session some others make a request.
pub fn each_text_goes_on_to_a_request()
    ensures nothing { (login : Bool) → whole_at login [] ≡ None }
    ensures more { (login : Bool) (text : List ℕ)
        → (more : List ℕ) × (request : Request) × (whole_at login (text ++ more) ≡ Some request) }
{}

/// A law: a syntax error names the longest prefix of the text with which some command begins. The
/// text then has a tag and the word of a command that the session allows, so no other fault of a
/// line comes first. But a text that has to be a command may also end within its tag or its word,
/// or after its word and a CR, and is then wrong at its end. If its word has not ended, the command
/// that begins so may be one that only the other sessions allow. A text that a command of the
/// session goes on from is wrong at its end, unless it is too long or its marker too large. So is
/// one that ends within the word of a command of any session.
pub fn a_syntax_error_has_its_place()
    ensures progress { (login : Bool) (text : List ℕ) (at : ℕ)
        → progress_in login text ≡ Err (Syntax at) → IsPlace login text at }
    ensures progress_word { (login : Bool) (text : List ℕ) (at : ℕ)
        → progress_in login text ≡ Err (Syntax at) → HasAllowedWord login text }
    ensures command { (login : Bool) (text : List ℕ) (at : ℕ)
        → command_in login text ≡ Err (Syntax at)
        → IsPlace login text at ⊎ (IsPlace (not login) text at × HasOpenWord text) }
    ensures command_word { (login : Bool) (text : List ℕ) (at : ℕ)
        → command_in login text ≡ Err (Syntax at)
        → HasAllowedWord login text ⊎ ((at ≡ length text) × EndsInWord text) }
    ensures command_prefix { (login : Bool) (text more : List ℕ) (tagged : Tagged)
        (progress : Progress) → 0 < length more → IsCommand login (text ++ more) tagged
        → progress_in login text ≡ Ok progress
        → command_in login text ≡ Err (Syntax (length text)) }
    ensures command_open { (login : Bool) (text : List ℕ) → HasOpenWord text → BeginsCommand text
        → length text < max_text → command_in login text ≡ Err (Syntax (length text)) }
{}
