// The addresses of loads, and the namespaces that they give.
ghost use Rattle.std.specs.Prelude.{◌≡◌};
ghost use Rattle.std.specs.List.{list_all};
ghost use Rattle.std.specs.Str.{IsCharBoundary};
ghost use Rattle.sw_parse_terminals.specs.Urls.{without_scheme, part_start, before_dot, without_underscore, last_part, up_to_dot, namespace_of, starts_name, is_name_byte, is_name_behind, is_name, has_namespace};

fn starts_name(byte: u8) -> bool
    ensures { result ≡ starts_name byte }
{
    byte.is_ascii_alphabetic() || byte == b'_' || byte >= 128
}

fn is_name_byte(byte: u8) -> bool
    ensures { result ≡ is_name_byte byte }
{
    starts_name(byte) || byte.is_ascii_digit() || byte == b'-'
}

fn are_name_bytes(bytes: &[u8]) -> bool
    ensures { result ≡ list_all is_name_byte bytes.now }
{
    bytes.iter().all(|byte| is_name_byte(*byte))
}

fn is_name_behind(bytes: &[u8]) -> bool
    ensures { result ≡ is_name_behind bytes.now }
{
    match bytes {
        [] => false,
        [first, rest @ ..] => (starts_name(*first) || *first == b'-') && are_name_bytes(rest),
    }
}

fn is_name(bytes: &[u8]) -> bool
    ensures { result ≡ is_name bytes.now }
{
    match bytes {
        [] => false,
        [b'-', rest @ ..] => is_name_behind(rest),
        [first, rest @ ..] => starts_name(*first) && are_name_bytes(rest),
    }
}

fn part_start(url: &str) -> usize
    ensures start { result ≡ part_start url.now }
    ensures boundary { IsCharBoundary url.now result }
{
    let mut start = 0;
    'bytes: for (at, byte) in url.as_bytes().iter().enumerate() {
        if *byte != b'/' {
            continue;
        }
        start = at + 1;
    }
    start
}

fn before_dot(part: &str) -> usize
    ensures count { result ≡ before_dot part.now }
    ensures boundary { IsCharBoundary part.now result }
{
    'bytes: for (at, byte) in part.as_bytes().iter().enumerate() {
        if *byte == b'.' {
            return at;
        }
    }
    part.len()
}

fn without_underscore(name: &str) -> &str
    ensures { result.now ≡ without_underscore name.now }
{
    match name.as_bytes() {
        [b'_', ..] => &name[1..],
        _ => name,
    }
}

#[tactic(auto, unfolding(crate::specs::Urls::without_scheme))]
fn without_scheme(url: &str) -> &str
    ensures { result.now ≡ without_scheme url.now }
{
    if url.starts_with("sass:") {
        &url[5..]
    } else {
        url
    }
}

/// The default namespace of a URL, which may be no name.
#[tactic(auto, unfolding(crate::specs::Urls::namespace_of))]
pub fn namespace_of(url: &str) -> &str
    ensures { result.now ≡ namespace_of url.now }
{
    let path = without_scheme(url);
    let part = &path[part_start(path)..];
    let name = &part[..before_dot(part)];
    without_underscore(name)
}

/// Whether a URL has a default namespace.
#[tactic(auto, unfolding(crate::specs::Urls::has_namespace))]
pub fn has_namespace(url: &str) -> bool
    ensures { result ≡ has_namespace url.now }
{
    is_name(namespace_of(url).as_bytes())
}
