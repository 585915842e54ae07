//! Suggestions for words that are not subcommands.

/// Words that are not subcommands, each with its suggestion.
static SUGGESTIONS: [(&str, &str); 34] = [
    ("union", "'combine union'"),
    ("merge", "'combine union'"),
    ("join", "'combine union'"),
    ("intersection", "'combine intersection'"),
    ("intersect", "'combine intersection'"),
    ("inter", "'combine intersection'"),
    ("overlap", "'combine intersection'"),
    ("difference", "'combine difference'"),
    ("diff", "'combine difference'"),
    ("subtract", "'combine difference'"),
    ("minus", "'combine difference'"),
    ("symmetric", "'combine symmetric'"),
    ("xor", "'combine symmetric'"),
    ("invert", "'complement'"),
    ("inverse", "'complement'"),
    ("coarsen", "'degrade'"),
    ("downgrade", "'degrade'"),
    ("plot", "'draw'"),
    ("show", "'draw'"),
    ("info", "'describe'"),
    ("area", "'describe'"),
    ("stat", "'describe'"),
    ("stats", "'describe'"),
    ("summary", "'describe'"),
    ("validate", "'check'"),
    ("verify", "'check'"),
    ("contains", "'run' with the command 'count'"),
    ("count", "'run' with the command 'count'"),
    ("add", "'run' with the command 'add'"),
    ("remove", "'run' with the command 'remove'"),
    ("claim", "'run' with the command 'claim'"),
    ("read", "'run' with the command 'read'"),
    ("script", "'run'"),
    ("neighbours", "'near'"),
];

/// Returns what to use instead of a word that is not a subcommand: a subcommand between quotation marks, with an
/// argument or a command if it needs one. Returns `None` if there is no suggestion.
pub fn suggest(word: &str) -> Option<&'static str> {
    for (guess, suggest) in &SUGGESTIONS {
        if *guess == word {
            return Some(*suggest);
        }
    }
    None
}
