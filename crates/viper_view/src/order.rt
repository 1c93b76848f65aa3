//! What the words of the command line ask for.

/// A view with the names that it is given (docs/VIEWING.md).
#[derive(Clone, Copy)]
pub enum Order<'a> {
    /// `table IMAGE PLAN CERT`
    Table {
        image: &'a str,
        plan: &'a str,
        cert: &'a str,
    },
    /// `explain IMAGE PLAN`
    Explain {
        image: &'a str,
        plan: &'a str,
    },
    /// `explain IMAGE PLAN CERT`
    Judge {
        image: &'a str,
        plan: &'a str,
        cert: &'a str,
    },
    /// `graph IMAGE PLAN CERT`
    Graph {
        image: &'a str,
        plan: &'a str,
        cert: &'a str,
    },
}

/// What is put where the words are no order.
pub const USAGE: &str = "usage
viper_view table IMAGE PLAN CERT: prints a certificate as a table
viper_view explain IMAGE PLAN: says why certify refuses, with the numbers
viper_view explain IMAGE PLAN CERT: says why check refuses, with the numbers
viper_view graph IMAGE PLAN CERT: draws a certificate as an SVG
";

/// Is the word a name: not empty, and no option?
fn is_plain(word: &str) -> bool {
    match word.as_bytes() {
        [] => false,
        [first, ..] => *first != b'-',
    }
}

/// The order of this word with three names.
fn three_names<'a>(word: &str, image: &'a str, plan: &'a str, cert: &'a str) -> Option<Order<'a>> {
    match word {
        "table" => Some(Order::Table { image, plan, cert }),
        "explain" => Some(Order::Judge { image, plan, cert }),
        "graph" => Some(Order::Graph { image, plan, cert }),
        _ => None,
    }
}

/// The order that the words are. None where they are none.
pub fn order_of<'a>(words: &[&'a str]) -> Option<Order<'a>> {
    match words {
        ["explain", image, plan] if is_plain(image) && is_plain(plan) => {
            Some(Order::Explain { image, plan })
        }
        [word, image, plan, cert] if is_plain(image) && is_plain(plan) && is_plain(cert) => {
            three_names(word, image, plan, cert)
        }
        _ => None,
    }
}
