// The words of a line.
ghost use Rattle.std.specs.Prelude.{◌≡◌, [], map, take, ◌≤◌};
ghost use Rattle.script.specs.Words.{Words, is_comment, arguments, ends_words};

fn is_comment(word: &str) -> bool
    ensures { result ≡ is_comment word.now }
{
    word.starts_with('#')
}

// How many arguments a call of this name has; none where there is no such call.
fn arguments(name: &str) -> usize
    ensures { result ≡ arguments name.now }
{
    match name {
        "head" => 5,
        "add" | "replace" | "close" => 3,
        "begin" => 2,
        "remove" | "sign" => 1,
        _ => 0,
    }
}

// Whether the words end before this one: a comment that stands first, or after the last argument.
// In the place of an argument any word is one.
fn ends_words(seen: &[&str], word: &str) -> bool
    ensures { result ≡ ends_words (map (λ w. w.now) seen.now) word.now }
{
    if !is_comment(word) {
        return false;
    }
    match seen {
        [] => true,
        [name, rest @ ..] => arguments(name) <= rest.len(),
    }
}

// The first seven words, or all that stand before a comment, and how many they are. No call has
// more than six.
pub(crate) fn first_words(text: &str) -> ([&str; 7], usize)
    ensures words { Words [] 7 text.now (map (λ w. w.now) (take result.1 result.0)) }
    ensures fit { result.1 ≤ 7 }
{
    let mut words = [""; 7];
    let mut count = 0;
    for word in text.split_whitespace() {
        if count == words.len() || ends_words(&words[..count], word) {
            break;
        }
        words[count] = word;
        count += 1;
    }
    (words, count)
}
