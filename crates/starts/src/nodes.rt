//! The nodes above some receivers, and their starts before anything is read. Assumes nothing.
ghost use Rattle.std.specs.Prelude.{◌≡◌, ◌^◌, ◌<◌, [], ◌++◌, IfOk, OnOk};
ghost use Rattle.std.specs.List.{All};
ghost use Rattle.starts.specs.Kept.{KeptNodes};
ghost use Rattle.starts.specs.Levels.{node_on, level_above};
ghost use Rattle.starts.specs.Window.{AsRead, nodes_of};

use crate::start::Start;
use std::alloc::{AllocError, Global};
use tree::heights::Height;
use tree::receivers::Receivers;

/// The node above a receiver that is `level` steps below the top.
fn node_on(height: Height, level: u8, receiver: u32) -> u32
    requires level { level < height.levels }
    requires receiver { receiver < 2 ^ height.levels }
    ensures { result ≡ node_on height.levels level receiver }
{
    (height.receivers() + receiver) >> (height.levels - level)
}

/// Pushes the nodes above some receivers that are `level` steps below the top, each once.
fn push_level(asked: Receivers, level: u8, nodes: &mut Vec<u32>) -> Result<(), AllocError>
    requires { level < asked.height.levels }
    ensures { OnOk result (nodes.new.items ≡ nodes.old.items ++ level_above asked.entry.height.levels asked.entry.list.now level) }
{
    let mut last = 0;
    for receiver in asked.list {
        let node = node_on(asked.height, level, *receiver);
        if node != last {
            nodes.push(node)?;
            last = node;
        }
    }
    Ok(())
}

/// The nodes whose starts are kept for some receivers, from the least on: 0, and level by level those above them.
fn nodes_above(asked: Receivers, heap: Global) -> Result<Vec<u32>, AllocError>
    ensures { IfOk result (λ v. KeptNodes asked.entry.height.levels asked.entry.list.now v.items) }
{
    let mut nodes = vec![in heap; 0; 1]?;
    for level in 0..asked.height.levels {
        push_level(asked, level, &mut nodes)?;
    }
    Ok(nodes)
}

/// The starts that are kept for some receivers, before anything is read.
pub fn unread_starts(asked: Receivers, heap: Global) -> Result<Vec<Start>, AllocError>
    ensures { IfOk result (λ v. KeptNodes asked.entry.height.levels asked.entry.list.now (nodes_of v.items) × All (AsRead []) v.items) }
{
    let nodes = nodes_above(asked, heap)?;
    nodes
        .iter()
        .map(|node| Start {
            node: *node,
            bytes: [0; 32],
        })
        .collect(heap)
}
