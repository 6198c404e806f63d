// What a program is called with.
use std::env;

// Whether refusals are to be explained, and the paths.
#[derive(Drop)]
pub struct Arguments {
    pub explain: bool,
    pub paths: Vec<String>,
}

// The words behind the program's name: `--explain` anywhere, the others are paths. A loop and no chain, since a
// push may fail and one pass finds the switch and the paths.
pub fn command_line(rt: &HostRuntime) -> anyhow::Result<Arguments> {
    let mut given = Arguments {
        explain: false,
        paths: Vec::new(rt.alloc()),
    };
    for word in env::args(rt)?.skip(1) {
        match word.as_str() {
            "--explain" => given.explain = true,
            _ => given.paths.push(word)?,
        }
    }
    Ok(given)
}
