//! A view, from the words of the command line to the text.

use crate::answer::{Answer, Stop};
use crate::explaining::explain;
use crate::graph::graph;
use crate::judging::judge;
use crate::order::{Order, USAGE, order_of};
use crate::reading::{cert_of, program_of};
use crate::table::table;
use std::alloc::Global;
use viper_io::{Sink, SinkFault, Store};
use viper_top::Status;

/// The answer to an order: its contents, each fetched once, in order, and then the view of them.
fn answer<S: Store>(alloc: Global, store: &mut S, order: &Order<'_>) -> Result<Answer, Stop> {
    match *order {
        Order::Table { image, plan, cert } => {
            let plan = program_of(alloc, store, image, plan)?;
            let cert = cert_of(alloc, store, cert)?;
            Ok(table(alloc, &plan, &cert)?)
        }
        Order::Graph { image, plan, cert } => {
            let plan = program_of(alloc, store, image, plan)?;
            let cert = cert_of(alloc, store, cert)?;
            Ok(graph(alloc, &plan, &cert)?)
        }
        Order::Judge { image, plan, cert } => {
            let plan = program_of(alloc, store, image, plan)?;
            let cert = cert_of(alloc, store, cert)?;
            Ok(judge(alloc, &plan, &cert)?)
        }
        Order::Explain { image, plan } => {
            let plan = program_of(alloc, store, image, plan)?;
            Ok(explain(alloc, &plan)?)
        }
    }
}

/// Puts the text of a status.
fn put<K: Sink>(out: &mut K, status: Status, text: &str) -> Status {
    match out.put(text.as_bytes()) {
        Ok(()) => status,
        Err(SinkFault::Failed) => Status::Outside,
        Err(SinkFault::Memory) => Status::Memory,
    }
}

/// Does what the words say: reads the contents from the store, and puts one text to the sink. The
/// store is written nowhere (docs/VIEWING.md).
pub fn view<S: Store, K: Sink>(
    alloc: Global,
    words: &[&str],
    store: &mut S,
    out: &mut K,
) -> Status {
    let Some(order) = order_of(words) else {
        return put(out, Status::Usage, USAGE);
    };
    match answer(alloc, store, &order) {
        Ok(answer) => put(out, answer.status(), answer.text.as_str()),
        Err(Stop::Input(text)) => put(out, Status::Input, text.as_str()),
        Err(Stop::Outside) => Status::Outside,
        Err(Stop::Memory) => Status::Memory,
    }
}
