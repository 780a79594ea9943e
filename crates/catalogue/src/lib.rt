// The messages of the program: specs/Catalogue.antt has the text of each by its name.
#![tactic(auto)]

mod message;
mod numbered;

ghost use Rattle.messages.specs.Adding.{Adds};
ghost use Rattle.messages.specs.Message.{filled};
ghost use Rattle.catalogue.specs.Catalogue.{message_of};

pub use message::Message;
pub use numbered::Numbered;

// Adds a message, or what stands in the catalogue at a number, with its holes filled.
pub fn add_message<M: Numbered>(
    message: M,
    first: usize,
    second: usize,
    word: &[u8],
    text: &mut [u8],
    at: usize,
) -> usize
    ensures { Adds text.old at (filled (message_of (M.number message)) first second word.now) text.new result }
{
    message_lists::fill_listed(
        b"\
            refused # %\n|\
            rule #, |\
            line #, word %: |\
            the rule ends too soon\n|\
            @ separates two rules, and stands on a line of its own\n|\
            the rule is whole before @: a word that joins two parts, such as and, stands before both of them; two rules are separated by a line ---\n|\
            @ has a carriage return (\\x0d) in it, as lines end on Windows: save the file with newlines alone\n|\
            @ has a tab (\\x09) in it: words are separated by spaces and newlines\n|\
            @ has a byte order mark (\\xef\\xbb\\xbf) in it: save the file without one\n|\
            @ has a non-breaking space (\\xc2\\xa0) in it: words are separated by spaces and newlines\n|\
            @ has a bracket in it: the rule language has none, since each word stands before its parts\n|\
            @ has a capital letter in it: words are written in small letters\n|\
            @ is the name of an action: a rule is written with the action's propositions\n|\
            @ can be watched, and not enforced: begin the rule with watch, or give it a limit (fulfilling 10 ..)\n|\
            @ can be enforced, and not watched: begin the rule with enforce\n|\
            @ is not a word of the rule language\n|\
            @ does not fit here\n|\
            a rule begins here: watch, enforce\n|\
            a watched policy comes here: now, count, not, and, or, eventually, before, after, ignoring\n|\
            an enforced policy comes here: holds, not, and, or, always, before, after, fulfilling, ignoring\n|\
            a formula comes here: true, false, p0 to p15, not, and, or\n|\
            a number comes here: 1 to 60, without a leading zero\n|\
            |\
            the sheet has fewer than 10 bytes, or its header says another length: give the whole sheet\n|\
            the sheet has not 1 to 16 actions, or not 1 to 64 nodes: correct the counts\n|\
            a list of the sheet is in the header, over the end or over the other: correct the offsets\n|\
            node # is of no known kind: correct it\n|\
            node # has a part that is no earlier node, an argument outside its range, or an unused field that is not 0: correct it\n|\
            node # has a part of the wrong type, or is the last one and a formula: rewrite the rule\n|\
            node # has a finite bound above 65534: shorten the rule\n|\
            node # remembers more than 1024 values: simplify it\n|\
            node # needs more than 64 rows: simplify it\n|\
            a watched sheet denies nothing: ask of an enforced one\n|\
            the action list has ~: write its proposition in the rule; for two, p0+p2, write: and p0 p2\n|\
            line 1, word #: @ is not an action\n|\
            line 1, word #: @ has the name of an action before it: each action has its own name\n|\
            an action is the propositions that hold of it, p0 to p15, joined by + (p0+p2), or - where none holds; its name may stand before them (gas=p4)\n|\
            a name is of small letters and digits, begins with a letter, and is not p and a digit\n|\
            line 1 lists no action: write the actions there, separated by spaces, and the rule from line 2 on\n|\
            line 1 lists more than 16 actions, and 16 are the most: remove some\n|\
            there are more than 8 rules, and 8 are the most: put the others into a second file, and on a second place\n|\
            line #: a watched rule denies nothing, and is not joined: put it into a file and on a place of its own\n|\
            line #: a watched rule denies nothing: ask of rules that begin with enforce\n|\
            line #: the rule has % bytes, and 1024 are the most: shorten it, or split it into rules on several places\n|\
            the file has more than 65535 bytes, and a rule 1024 at the most: shorten it\n|\
            line #: the rule has more than 64 nodes, which are its words except the first and the numbers: shorten it, or split it into rules on several places\n|\
            @ remembers more than 1024 values\nsimplify what begins there, or split it into rules on several places\n|\
            @ needs more than 64 rows\nsimplify what begins there, or split it into rules on several places\n|\
            joined, the # rules remember more than 1024 values: join fewer of them, and put the others on a second place\n|\
            joined, the # rules need more than 64 rows: join fewer of them, and put the others on a second place\n|\
            this is in the file ~\n|\
            the list, word #: @ is not an action\n|\
            an action is its number, from 0 and below #, without leading zero\n|\
            an action is its number in the action list, from 0 and below #, without leading zero, or its name there; the list is: ~\n|\
            the list has more than 65535 bytes: ask of fewer actions\n|\
            permitted\nno action of the list is denied; it has #\n|\
            denied # %\n|\
            action #|\
            \x20(~)|\
            \x20is denied: word # of the list, place % counted from 0\n|\
            node # (|\
            ) denies it|\
            , rule #|\
            , line #, word %|\
            :|\
            \n|\
            note: this rule denies nothing\n|\
            note: this rule denies every action from the start\n|\
            note: this rule is never reported\n|\
            note: this rule is reported at the first action, whatever it is\n|\
            note: no action has p#\n|\
            lemon: there is no word ~\n|\
            lemon: cannot read the file ~\n|\
            lemon: the action list of ~ is another than that of the first file: rules that are joined have one action list\n|\
            lemon: ~ is a rule sheet: join takes rule files\n|\
            lemon: compile takes one file: join takes several\n|\
            lemon: join takes the names of rule files\n|\
            lemon: explain takes the name of a file, and then the actions\n|\
            lemon compile FILE           print the table of a rule file or a rule sheet\n\
            \x20   lemon compile examples/house/report_the_drop.rule\n\
            \x20   lemon compile examples/never_charge.sheet\n\
            lemon join FILE FILE ..      print one table for the rules of several rule files with one action list\n\
            \x20   lemon join examples/house/no_charge_before_the_tray.rule examples/house/at_most_three_charges.rule\n\
            lemon explain FILE ACTION .. print which of the actions, done in this order, is denied first, and by which part of the rule\n\
            \x20   lemon explain examples/house/no_charge_before_the_tray.rule 1 0\n\
            lemon explain FILE           the same, with the actions on standard input\n\
            \x20   lemon explain examples/denials/a_whole_roast.rule < examples/denials/a_whole_roast.list\n\
            lemon help                   print this\n\
            \n\
            For FILE, - is standard input, and so is no FILE after compile. A rule file has the actions on its first line and the rule below it\n\
            (examples/README.md). Actions are given by number, from 0, or by the names of the action list.\n|",
        message.number(),
        first,
        second,
        word,
        text,
        at,
    )
}
