use super::failure::Failure;
use console::Style;
use replay::Layers;
use std::alloc::Global;
use std::env::Args;

/// The words that follow a command: what begins with `--` is an option, the others are files.
#[derive(Drop)]
pub struct Options {
    pub style: Style,
    /// how many layers of standard flags lie over the form that is asked
    pub layers: Layers,
    pub files: Vec<String>,
}

impl Options {
    /// The file, if just one is given.
    pub fn only_file(&self) -> Option<&str> {
        match self.files.as_slice() {
            [file] => Some(file.as_str()),
            _ => None,
        }
    }
}

// the number of layers that is written
fn layers_of(word: &str) -> Option<Layers> {
    Some(match word {
        "0" => Layers::None,
        "1" => Layers::One,
        "2" => Layers::Two,
        "3" => Layers::Three,
        _ => return None,
    })
}

/// Reads the words that follow the command. Only `replay` asks a form under layers of standard flags.
pub fn read_options(heap: Global, command: &str, mut words: Args) -> Result<Options, Failure> {
    let mut options = Options {
        style: Style::Words,
        layers: Layers::None,
        files: Vec::new(heap),
    };
    // not a `for`: an option takes the word behind it
    while let Some(word) = words.next() {
        match word.as_str() {
            "--plain" => options.style = Style::Plain,
            "--flags" if command == "replay" => options.layers = expect_layers(words.next())?,
            other => {
                if other.starts_with("--") {
                    let message = format!(in heap;
                        "there is no option `{other}`; `desk help` lists what there is"
                    )?;
                    return Err(Failure::Refused(message));
                }
                options.files.push(word)?;
            }
        }
    }
    Ok(options)
}

// what comes after `--flags`
fn expect_layers(word: Option<String>) -> Result<Layers, Failure> {
    word.and_then(|word| layers_of(word.as_str())).ok_or(Failure::Misused(
        "after --flags comes a number of layers from 0 to 3",
    ))
}
