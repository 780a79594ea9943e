// The list of actions: a word an action, its number or its name. A word that is neither becomes 255, which is no action.
ghost use Rattle.std.specs.Prelude.{◌≤◌, length, IfErr};
ghost use Rattle.rule_files.specs.Standing.{IsWordIn};

use rule_files::{
    WrongWord, action_named, byte_at, digit, following, front, is_doubled, is_name, name_at,
    refuse_word, say, say_bytes, say_naming, say_number, say_refusal, say_word, word_at, words_of,
};

// The number up to 255 that a word of digits is.
fn number_of(word: &[u8]) -> Option<u8> {
    let mut number = 0u8;
    for byte in word {
        let next = digit(*byte);
        if 9 < next {
            return None;
        }
        number = number.checked_mul(10)?.checked_add(next)?;
    }
    Some(number)
}

// The action that a word is, where these are the names. Its number has no leading zero.
fn action_of(word: &[u8], names: &[u8]) -> Option<u8> {
    if is_name(word) {
        return u8::try_from(action_named(names, word)?).ok();
    }
    match word {
        [b'0', _, ..] => None,
        _ => number_of(word),
    }
}

// Reads a list to the front of an area, as far as that has room, and answers it.
pub(crate) fn read_list<'a>(line: &[u8], names: &[u8], list: &'a mut [u8]) -> &'a [u8]
    ensures { length result.now ≤ length list.old }
{
    let mut places = list.iter_mut();
    for word in words_of(line) {
        let Some(place) = places.next() else {
            break;
        };
        *place = action_of(word, names).unwrap_or(255);
    }
    front(list, words_of(line).count())
}

// Reads a list of names, and answers how many there are. A word that is none, or stands there before, is refused.
#[tactic(auto, using(rule_files::proofs::Standing::all_left, rule_files::proofs::Standing::word_left, rule_files::proofs::Standing::rest_left))]
pub(crate) fn read_names(names: &[u8]) -> Result<usize, WrongWord<'_>>
    ensures { IfErr result (λ w. IsWordIn names.now w.word.now) }
{
    for (behind, word) in words_of(names).enumerate() {
        let doubled = is_doubled(names, word, behind);
        if doubled || !is_name(word) {
            return Err(WrongWord {
                word,
                behind,
                doubled,
            });
        }
    }
    Ok(words_of(names).count())
}

// 2: a word of the names. The word `sheet` is the first of its line.
pub(crate) fn refuse_name(rt: &impl Print, wrong: WrongWord<'_>) {
    let number = following(following(wrong.behind));
    if refuse_word(rt, wrong, 2, number, b" is", b" is not a name\n") {
        say_naming(rt);
    }
}

// 2: not as many names as the sheet has actions.
pub(crate) fn refuse_names(rt: &impl Print, count: usize, actions: usize) {
    say_refusal(rt, 2, 0);
    say(rt, b"line 2 names ");
    say_number(rt, count);
    say(rt, b" actions, and the sheet has ");
    say_number(rt, actions);
    say(rt, b": name each of them, or none\n");
}

// The name of an action, with what stands before and after it; nothing where it has none. Answers whether it has one.
pub(crate) fn say_name(
    rt: &impl Print,
    names: &[u8],
    action: usize,
    before: &[u8],
    behind: &[u8],
) -> bool {
    let Some(name) = name_at(names, action) else {
        return false;
    };
    say(rt, before);
    say(rt, name);
    say(rt, behind);
    true
}

// What an action can be, where there are so many.
fn say_actions(rt: &impl Print, names: &[u8], actions: usize) {
    say(rt, b"an action is a number without leading zero, below ");
    say_number(rt, actions);
    let mut before = b", or a name: ".as_slice();
    for action in 0..actions {
        if say_name(rt, names, action, before, b"") {
            before = b" ";
        }
    }
    say(rt, b"\n");
}

// 12: the first number that is no action.
pub(crate) fn refuse_list(rt: &impl Print, line: &[u8], list: &[u8], names: &[u8], actions: usize) {
    let place = list
        .iter()
        .position(|action| actions <= usize::from(*action))
        .unwrap_or(list.len());
    let word = word_at(line, place);
    say_refusal(rt, 12, 0);
    say(rt, b"the list, word ");
    say_number(rt, following(place));
    say(rt, b": ");
    say_word(rt, word);
    say(rt, b" is not an action\n");
    say_bytes(rt, word);
    say_actions(rt, names, actions);
}
