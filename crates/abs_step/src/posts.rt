//! What an instruction does to each register and each cell.

ghost use Rattle.std.specs.Prelude.{◌≡◌, ◌<◌, length, map};
ghost use Rattle.abs_step.specs.declared.outcome.Post.TheVariants.{Same};

use crate::Post;
use flag_relation::Reg;
use std::alloc::Global;
use std::marker::Model;
use viper_word::{Addr, Memory};

/// What an instruction does to A, X, Y and each cell. docs/METHOD.md, "Outcomes".
#[derive(Drop)]
pub struct Posts {
    pub a: Post,
    pub x: Post,
    pub y: Post,
    pub cells: Vec<Post>,
}

impl Model for Posts {
    ghost use Rattle.flag_relation.specs.Values.{Values};
    ghost use Rattle.abs_step.specs.declared.outcome.Post.{Post};

    ghost Value = { Values Post };

    ghost view = { λ p. record {
      regs = record { a = p.a; x = p.x; y = p.y };
      cells = p.cells.items;
    } };
}

/// Says of each cell that it stays.
fn stay(cells: &[Addr], posts: &mut [Post])
    requires { length cells.now ≡ length posts.old }
    ensures posts { posts.new ≡ map (λ _. Same) cells.now }
    ensures count { length posts.new ≡ length cells.now }
{
    let mut at = 0;
    while at < posts.len() {
        posts[at] = Post::Same;
        at += 1;
    }
}

impl Posts {
    ghost use Rattle.std.specs.Prelude.{IfOk};
    ghost use Rattle.flag_relation.specs.Values.{with_reg, with_cell};
    ghost use Rattle.abs_step.specs.OutcomeLists.{all_same};

    /// Room for so many cells. `Memory` for want of memory.
    pub(crate) fn new(alloc: Global, cells: u8) -> Result<Posts, Memory>
        ensures { IfOk result (λ p. length p.cells ≡ cells) }
    {
        let mut posts = Vec::new(alloc);
        for _ in 0..cells {
            if posts.push(Post::Same).is_err() {
                return Err(Memory);
            }
        }
        Ok(Posts {
            a: Post::Same,
            x: Post::Same,
            y: Post::Same,
            cells: posts,
        })
    }

    /// Says of each variable that it stays.
    pub(crate) fn stay(&mut self, cells: &[Addr])
        requires { length cells.now ≡ length self.old.cells }
        ensures posts { self.new ≡ all_same cells.now }
        ensures count { length self.new.cells ≡ length cells.now }
    {
        self.a = Post::Same;
        self.x = Post::Same;
        self.y = Post::Same;
        stay(cells, self.cells.as_mut_slice());
    }

    /// Takes over what the other says. It has as many cells.
    pub(crate) fn copy_from(&mut self, other: &Posts)
        requires { length self.old.cells ≡ length other.now.cells }
        ensures { self.new ≡ other.now }
    {
        self.a = other.a;
        self.x = other.x;
        self.y = other.y;
        self.cells
            .as_mut_slice()
            .copy_from_slice(other.cells.as_slice());
    }

    /// Says what becomes of a register.
    pub(crate) fn set_reg(&mut self, r: Reg, post: Post)
        ensures { self.new ≡ with_reg self.old r post }
    {
        match r {
            Reg::A => self.a = post,
            Reg::X => self.x = post,
            Reg::Y => self.y = post,
        }
    }

    /// Says what becomes of a cell.
    pub(crate) fn set_cell(&mut self, i: u8, post: Post)
        requires { i < length self.old.cells }
        ensures { self.new ≡ with_cell self.old i post }
    {
        self.cells[i as usize] = post;
    }
}
