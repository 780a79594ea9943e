// Bytes in fields: what stands between the bytes that are a mark, as lines between newlines. Definitions are in specs/Fields.antt.
#![tactic(auto)]

ghost use Rattle.std.specs.Prelude.{◌≡◌, [], ◌+◌, ◌≤◌, ◌==◌, eqb, length, take, get_or, position};
ghost use Rattle.fields.specs.Fields.{split_by, between, EndsField, FieldAt};

// Where something stands. It is empty where there is no such thing.
#[derive(Clone, Copy)]
pub struct Span {
    pub from: usize,
    pub to: usize,
}

impl Span {
    pub fn is_empty(self) -> bool
        ensures { result ≡ eqb self.from self.to }
    {
        self.from == self.to
    }

    // What stands there in a text.
    pub fn of(self, text: &[u8]) -> &[u8]
        ensures { result.now ≡ between text.now self.from self.to }
    {
        part(text, self.from, self.to)
    }
}

// The place of the first mark.
fn first_mark(bytes: &[u8], mark: u8) -> Option<usize>
    ensures { result ≡ position (λ byte. byte == mark) bytes.now }
{
    bytes.iter().position(|byte| *byte == mark)
}

// Where the field ends that begins at `from`: at the next mark, or with the bytes.
pub fn find(bytes: &[u8], from: usize, mark: u8) -> usize
    requires { from ≤ length bytes.now }
    ensures { EndsField mark bytes.now from result }
{
    match first_mark(&bytes[from..], mark) {
        Some(before) => from + before,
        None => bytes.len(),
    }
}

// Where the field of this number stands, from 0: nothing stands there where there is none.
pub fn field_at(bytes: &[u8], mark: u8, number: usize) -> Span
    ensures { FieldAt mark bytes.now number result.from result.to }
{
    let mut from = 0;
    for passed in 0..number {
        let end = find(bytes, from, mark);
        if end == bytes.len() {
            return Span { from: end, to: end };
        }
        from = end + 1;
    }
    let to = find(bytes, from, mark);
    Span { from, to }
}

// The bytes of that field.
pub fn field(bytes: &[u8], mark: u8, number: usize) -> &[u8]
    ensures { result.now ≡ get_or (split_by mark bytes.now) number [] }
{
    field_at(bytes, mark, number).of(bytes)
}

// How many marks there are: the fields are one more.
pub fn marks_in(bytes: &[u8], mark: u8) -> usize
    ensures { (length (split_by mark bytes.now) ≡ result + 1) × (result ≤ length bytes.now) }
{
    bytes.iter().filter(|byte| **byte == mark).count()
}

// What stands between two positions, as far as there are bytes.
pub fn part(bytes: &[u8], from: usize, to: usize) -> &[u8]
    ensures { result.now ≡ between bytes.now from to }
{
    front(bytes, to).get(from..).unwrap_or(&[])
}

// The first items, as many as there are.
#[tactic(auto, using(std::proofs::lemmas::List::take_min))]
pub fn front<T>(items: &[T], count: usize) -> &[T]
    ensures { result.now ≡ take count items.now }
{
    let end = count.min(items.len());
    &items[..end]
}
