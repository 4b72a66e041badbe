// Numbers as the tables write them: no leading zero, and a minus only before a gain below zero. Not read as the tables' own are, which
// go on past their ranges: a number of a script has to fit.

fn has_form(digits: &str) -> bool {
    match digits.as_bytes() {
        [] | [b'0', _, ..] => false,
        bytes => bytes.iter().all(|b| b.is_ascii_digit()),
    }
}

pub fn number(word: &str) -> Option<u32> {
    if !has_form(word) {
        return None;
    }
    word.parse().ok()
}

pub fn gain(word: &str) -> Option<i64> {
    let digits = word.strip_prefix('-').unwrap_or(word);
    if word == "-0" || !has_form(digits) {
        return None;
    }
    word.parse().ok()
}
