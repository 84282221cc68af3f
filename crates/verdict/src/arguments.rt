// The words of the command line.
use profile::Fixed;

// By which rules messages are read: a fixed profile, or the sheet in a file.
#[derive(Clone, Copy)]
pub enum Rules<'a> {
    Fixed(Fixed),
    Sheet(&'a str),
}

#[derive(Clone, Copy)]
pub struct Arguments<'a> {
    pub rules: Rules<'a>,
    pub key: u64,
    pub trust: Option<&'a str>,
    pub files: &'a [String],
}

// What was given so far.
#[derive(Clone, Copy, Default)]
struct Options<'a> {
    rules: Option<Rules<'a>>,
    key: Option<u64>,
    trust: Option<&'a str>,
}

// 16 hexadecimal digits.
fn key(text: &str) -> Option<u64> {
    if text.len() != 16 || text.starts_with('+') {
        return None;
    }
    u64::from_str_radix(text, 16).ok()
}

impl<'a> Options<'a> {
    // With one option more; none that is unknown, malformed or given before.
    fn with(self, name: &str, value: &'a str) -> Option<Options<'a>> {
        let mut options = self;
        match name {
            "--profile" if self.rules.is_none() => {
                options.rules = Some(Rules::Fixed(value.parse().ok()?));
            }
            "--sheet" if self.rules.is_none() => {
                options.rules = Some(Rules::Sheet(value));
            }
            "--key" if self.key.is_none() => {
                options.key = Some(key(value)?);
            }
            "--trust" if self.trust.is_none() => {
                options.trust = Some(value);
            }
            _ => return None,
        }
        Some(options)
    }
}

// None where the words are not as the usage has them.
pub fn parse(words: &[String]) -> Option<Arguments<'_>> {
    let mut options = Options::default();
    let mut files = words;
    while let [name, value, rest @ ..] = files
        && name.starts_with("--")
    {
        options = options.with(name, value)?;
        files = rest;
    }
    if files.is_empty() {
        return None;
    }
    Some(Arguments {
        rules: options.rules?,
        key: options.key?,
        trust: options.trust,
        files,
    })
}
