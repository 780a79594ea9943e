// What a refusal of the file or of the text means, and what to do.
ghost use Rattle.std.specs.Prelude.{◌≤◌, IfSome};
ghost use Rattle.rule_files.specs.Standing.{StandsIn};

use crate::actions::{WrongWord, action_named, is_name};
use crate::output::{say, say_number, say_refusal, say_word};
use crate::parts::{Place, RuleText};
use crate::rooms::front;
use crate::words::{newlines, word_at, word_behind};
use grammar::Category;
use rule_messages::{Misfit, add_expected, add_misfit, add_place, misfit_of};

// The number of what comes after so many, from 1.
pub fn following(count: usize) -> usize
    ensures { result ≤ 1000000 }
{
    count.min(999999) + 1
}

// What an action is to be.
fn say_action(rt: &impl Print) {
    say(
        rt,
        b"an action is the propositions that hold of it, p0 to p15, joined by + (p0+p2), or - where none holds; its name may stand before them (gas=p4)\n",
    );
}

// What a name is to be.
pub fn say_naming(rt: &impl Print) {
    say(
        rt,
        b"a name is of small letters and digits, begins with a letter, and is not p and a digit\n",
    );
}

// What a word has in it that no word has: a byte that cannot be seen, a bracket, a capital letter. Nothing where it has none.
pub fn say_bytes(rt: &impl Print, word: &[u8]) {
    let misfit = misfit_of(word, Category::Text, false);
    match misfit {
        Misfit::Return
        | Misfit::Tab
        | Misfit::Mark
        | Misfit::WideSpace
        | Misfit::Bracket
        | Misfit::Capital => {
            let mut room: [u8; 1024] = base::room(0);
            let end = add_misfit(misfit, word, &mut room, 0);
            say(rt, front(&room, end));
        }
        _ => {}
    }
}

// 2: a word of a list is none that the list can have, or has the name of one before it. It is word `number` of its line. Answers whether it is none.
pub fn refuse_word(
    rt: &impl Print,
    wrong: WrongWord<'_>,
    line: usize,
    number: usize,
    doubled: &[u8],
    none: &[u8],
) -> bool {
    say_refusal(rt, 2, 0);
    say(rt, b"line ");
    say_number(rt, line);
    say(rt, b", word ");
    say_number(rt, number);
    say(rt, b": ");
    say_word(rt, wrong.word);
    if wrong.doubled {
        say(rt, doubled);
        say(
            rt,
            b" the name of an action before it: each action has its own name\n",
        );
        return false;
    }
    say(rt, none);
    say_bytes(rt, wrong.word);
    true
}

// 2: a word of the action list.
pub fn refuse_action(rt: &impl Print, wrong: WrongWord<'_>) {
    let number = following(wrong.behind);
    if refuse_word(rt, wrong, 1, number, b" has", b" is not an action\n") {
        say_action(rt);
        if wrong.word.contains(&b'=') {
            say_naming(rt);
        }
    }
}

// 2: no action, or too many.
pub fn refuse_actions(rt: &impl Print, count: usize) {
    say_refusal(rt, 2, 0);
    if count == 0 {
        say(
            rt,
            b"line 1 lists no action: write the actions there, separated by spaces, and the rule from line 2 on\n",
        );
        say_action(rt);
        return;
    }
    say(rt, b"line 1 lists ");
    say_number(rt, count);
    say(rt, b" actions, and 16 are the most: remove some\n");
}

// Which rule is told of, where there are several.
pub fn say_rule(rt: &impl Print, rule: Option<usize>, behind: &[u8]) {
    if let Some(rule) = rule {
        say(rt, b"rule ");
        say_number(rt, rule);
        say(rt, behind);
    }
}

// 2: more rules than a file can have.
pub fn tell_rules(rt: &impl Print) {
    say(
        rt,
        b"the file has more than 8 rules, and 8 are the most: put the others into a second file, and on a second place\n",
    );
}

// 34: a watched rule, on the line of its first word, and what to do.
pub fn tell_watched(rt: &impl Print, watched: Place, advice: &[u8]) {
    say_rule(rt, watched.rule, b", ");
    say(rt, b"line ");
    say_number(rt, watched.line);
    say(rt, b": a watched rule denies nothing");
    say(rt, advice);
}

// 31.
pub fn tell_long(rt: &impl Print, length: usize, place: Place) {
    say_rule(rt, place.rule, b": ");
    say(rt, b"the rule has ");
    say_number(rt, length);
    say(
        rt,
        b" bytes, and 1024 are the most: shorten it, or split it into rules on several places\n",
    );
}

// 31, of a file with over 65,535 bytes.
pub fn refuse_long_file(rt: &impl Print) {
    say_refusal(rt, 31, 0);
    say(
        rt,
        b"the file has more than 65535 bytes, and a rule 1024 at the most: shorten it\n",
    );
}

// 33.
pub fn tell_nodes(rt: &impl Print, place: Place) {
    say_rule(rt, place.rule, b": ");
    say(
        rt,
        b"the rule has more than 64 nodes, which are its words except the first and the numbers: shorten it, or split it into rules on several places\n",
    );
}

// Where a word of the rule stands, after so many.
pub fn say_spot(rt: &impl Print, rule: RuleText<'_>, words: usize) {
    let place = rule.place;
    let line = place.line + newlines(rule.text, word_behind(rule.text, words).from);
    let number = place.rule.unwrap_or(0);
    let mut room: [u8; 1024] = base::room(0);
    let end = add_place(number, line, following(words), &mut room, 0);
    say(rt, front(&room, end));
}

// The same, and the word.
pub fn say_place(rt: &impl Print, rule: RuleText<'_>, words: usize) {
    say_spot(rt, rule, words);
    say_word(rt, word_at(rule.text, words));
}

// The word of a list that a name names an action by.
fn named_word<'a>(list: &'a [u8], name: &[u8]) -> Option<&'a [u8]>
    ensures { IfSome result (λ w. StandsIn list.now w.now) }
{
    if !is_name(name) {
        return None;
    }
    Some(word_at(list, action_named(list, name)?))
}

// 32, after so many words. The file's actions are listed.
pub fn tell_unreadable(
    rt: &impl Print,
    rule: RuleText<'_>,
    words: usize,
    expected: Category,
    list: &[u8],
) {
    let word = word_at(rule.text, words);
    let named = named_word(list, word);
    let misfit = misfit_of(word, expected, named.is_some());
    let mut room: [u8; 1024] = base::room(0);
    let at = add_misfit(misfit, word, &mut room, 0);
    let end = add_expected(expected, &mut room, at);
    say_spot(rt, rule, words);
    say(rt, front(&room, end));
    if let Some(action) = named {
        say(rt, b"the action list has ");
        say(rt, action);
        say(
            rt,
            b": write its proposition in the rule; for two, p0+p2, write: and p0 p2\n",
        );
    }
}
