//! Laws of the definition of tokens.
#![tactic(auto)]

ghost use Rattle.std.specs.Prelude.{◌≡◌, false, IsTrue};
ghost use Rattle.std.specs.List.{list_all, prefix_len};
ghost use Rattle.unicode_ident.specs.Ident.{is_xid_continue};
ghost use Rattle.gd_syntax.specs.declared.fault.LoadFault.{LoadFault};
ghost use Rattle.gd_syntax.specs.Spellings.{begins, digits_len, is_digit, sign_at};
ghost use Rattle.gd_syntax.specs.Longest.{IsLongest, are_digits};
ghost use Rattle.gd_syntax.specs.Layout.{tokens_in_bytes};
ghost use Rattle.token_laws.specs.FaultOrder.{AnswersFirst, IsFirstOf, faults_in};
ghost use Rattle.token_laws.specs.HeaderNames.{IsHeaderName};
ghost use Rattle.token_laws.specs.Laws.{IsFirstFault, IsSign};

/// The law that a word is the longest front whose characters may go on an identifier.
pub fn longest_word(text: &[char])
    ensures { IsLongest (list_all is_xid_continue) text.now (prefix_len is_xid_continue text.now) }
{}

/// The law that digits are the longest front that is digits with one `_` between two of them.
pub fn longest_digits(text: &[char], radix: u32)
    requires { IsTrue (begins (is_digit radix) text.now) }
    ensures { IsLongest (are_digits radix false) text.now (digits_len radix false text.now) }
{}

/// The law that a sign is the longest that begins the text, and that there is none only where no sign begins it.
pub fn longest_sign(text: &[char])
    ensures { IsSign text.now (sign_at 3 text.now) }
{}

/// The law that a fault, unless it is `Unclosed`, is that of the shortest front of the file's pieces that has one, whatever
/// stands behind that front.
pub fn first_fault(text: &[u8])
    ensures { IsFirstFault text.now }
{}

/// The law that a file has tokens where it has no fault, and that its fault is the first of all that it has.
pub fn the_first_fault_counts(text: &[u8])
    ensures first { AnswersFirst (faults_in text.now) (tokens_in_bytes text.now) }
    ensures one { (a b : LoadFault) → IsFirstOf (faults_in text.now) a → IsFirstOf (faults_in text.now) b → a ≡ b }
{}

/// The law that the global name of a header is that of the first `class_name` among the tokens of its lines.
pub fn the_header_has_the_first_name(text: &[u8])
    ensures { IsHeaderName text.now }
{}
