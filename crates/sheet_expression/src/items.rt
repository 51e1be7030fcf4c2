// The beginning of an item of an expression (02, L13): an end, an event or a back; or a bracket, after which a choice must follow.
ghost use Rattle.std.specs.Prelude.{◌≡◌, ℕ, ◌<◌, length};
ghost use Rattle.std.proofs.Math.ListN.{get_elem?};
ghost use Rattle.sheet_grammar.specs.Tree.{Tree};
ghost use Rattle.sheet_grammar.specs.Grammar.{Bracket as bracket-phrase};
ghost use Rattle.sheet_grammar.specs.Reader.{
  byte_is,
  digit_value,
  number,
  label_at,
  number_at,
  curly_head,
  event_end_lem,
  event_from_lem,
  event_head,
  head_at,
  event_letter,
};
ghost use Rattle.sheet_expression.specs.Code.{digit_of, num_of, leaf_of, letter_of, event_tree, opened_by, atom_by, head_of};

// A number and the place after it.
#[derive(Clone, Copy)]
struct Num {
    value: u8,
    end: usize,
}

// An item with no choice in it.
#[derive(Clone, Copy)]
pub(crate) enum Leaf {
    End,
    Static { action: u8, resource: u8 },
    Name { action: u8, name: u8 },
    Back(u8),
}

// What may stand around a choice.
#[derive(Clone, Copy)]
pub(crate) enum Bracket {
    Round,
    Loop(u8),
    Fresh(u8),
    Sandbox(u8),
}

// An item and the place after it; or a bracket and its place.
#[derive(Clone, Copy)]
pub(crate) enum Head {
    Atom { leaf: Leaf, end: usize },
    Opens { bracket: Bracket, place: usize },
}

// Which letter stands in an event.
#[derive(Clone, Copy)]
enum Letter {
    Static,
    Name,
}

// The byte b stands at place i.
pub(crate) fn is_at(text: &[u8], i: usize, b: u8) -> bool
    ensures { result ≡ byte_is (get_elem? text.now i) b }
{
    i < text.len() && text[i] == b
}

// The digit at place i.
fn digit_at(text: &[u8], i: usize) -> Option<u8>
    ensures { digit_of result ≡ digit_value (get_elem? text.now i) }
{
    let b = *text.get(i)?;
    if b.is_ascii_digit() {
        Some(b - b'0')
    } else {
        None
    }
}

// "Labels are one digit, 0 to 9". The readers of an item answer a place where they fail: that at which it goes wrong.
fn label(text: &[u8], i: usize) -> Result<Num, usize>
    ensures { num_of result ≡ label_at text.now i }
{
    match digit_at(text, i) {
        None => Err(i),
        Some(value) => Ok(Num { value, end: i + 1 }),
    }
}

// "all other numbers have one or two digits".
fn number(text: &[u8], i: usize) -> Result<Num, usize>
    ensures { num_of result ≡ number_at text.now i }
{
    let Some(first) = digit_at(text, i) else {
        return Err(i);
    };
    match digit_at(text, i + 1) {
        None => Ok(Num {
            value: first,
            end: i + 1,
        }),
        Some(second) => Ok(Num {
            value: 10 * first + second,
            end: i + 2,
        }),
    }
}

// A number, and then the opening curly bracket.
fn curly(text: &[u8], n: Num) -> Result<Num, usize>
    ensures { (k : ℕ → bracket-phrase) → opened_by k result ≡ curly_head text.now k (number n.value n.end) }
{
    if is_at(text, n.end, b'{') {
        Ok(n)
    } else {
        Err(n.end)
    }
}

// Which letter stands at place i.
fn letter_at(text: &[u8], i: usize) -> Option<Letter>
    ensures { letter_of result ≡ event_letter (get_elem? text.now i) }
{
    if is_at(text, i, b's') {
        return Some(Letter::Static);
    }
    if is_at(text, i, b'n') {
        return Some(Letter::Name);
    }
    None
}

fn event_leaf(letter: Letter, action: u8, value: u8) -> Leaf
    ensures { leaf_of result ≡ event_tree letter action value }
{
    match letter {
        Letter::Static => Leaf::Static {
            action,
            resource: value,
        },
        Letter::Name => Leaf::Name {
            action,
            name: value,
        },
    }
}

// An event's second number, and then the closing round bracket: the place after this.
fn event_end(text: &[u8], n: Num) -> Result<Num, usize>
    ensures { (k : ℕ → Tree) → atom_by k result ≡ event_end_lem text.now k (number n.value n.end) }
{
    if is_at(text, n.end, b')') {
        Ok(Num {
            value: n.value,
            end: n.end + 1,
        })
    } else {
        Err(n.end)
    }
}

// An event from its letter on, which stands at place i.
fn event_from(text: &[u8], action: u8, i: usize) -> Result<Head, usize>
    ensures { head_of result ≡ event_from_lem text.now action i (event_letter (get_elem? text.now i)) }
{
    let Some(letter) = letter_at(text, i) else {
        return Err(i);
    };
    let second = number(text, i + 1)?;
    let n = event_end(text, second)?;
    let leaf = event_leaf(letter, action, n.value);
    Ok(Head::Atom { leaf, end: n.end })
}

// A number at the beginning of an item: an event's action, or `0` alone.
fn event(text: &[u8], at: usize, n: Num) -> Result<Head, usize>
    requires { at < length text.now }
    ensures { head_of result ≡ event_head text.now at (number n.value n.end) }
{
    if is_at(text, n.end, b'(') {
        return event_from(text, n.value, n.end + 1);
    }
    if n.end != at + 1 {
        return Err(n.end);
    }
    if n.value != 0 {
        return Err(n.end);
    }
    let leaf = Leaf::End;
    Ok(Head::Atom { leaf, end: n.end })
}

// The beginning of an item.
pub(crate) fn begins(text: &[u8], at: usize) -> Result<Head, usize>
    ensures { head_of result ≡ head_at text.now at }
{
    if text.len() <= at {
        return Err(at);
    }
    let (bracket, place) = match text[at] {
        b'(' => (Bracket::Round, at),
        b'm' => {
            let named = label(text, at + 1)?;
            let n = curly(text, named)?;
            (Bracket::Loop(n.value), n.end)
        }
        b'f' => {
            let named = number(text, at + 1)?;
            let n = curly(text, named)?;
            (Bracket::Fresh(n.value), n.end)
        }
        b'p' => {
            let named = number(text, at + 1)?;
            let n = curly(text, named)?;
            (Bracket::Sandbox(n.value), n.end)
        }
        b'h' => {
            let n = label(text, at + 1)?;
            let leaf = Leaf::Back(n.value);
            return Ok(Head::Atom { leaf, end: n.end });
        }
        b'0'..=b'9' => return event(text, at, number(text, at)?),
        _ => return Err(at),
    };
    Ok(Head::Opens { bracket, place })
}
