//! The posts of all seats.
ghost use Rattle.std.specs.Prelude.{◌≡◌, ◌<◌, IfOk};

use crate::post::Post;
use rset::ResourceSet;
use std::alloc::{AllocError, Global};
use std::marker::Model;
use std::sync::Wait;

/// A post for each seat, by its number. Contracts see how many there are.
#[derive(Drop)]
pub struct Posts {
    posts: Vec<Post>,
}

impl Model for Posts {
    ghost use Rattle.std.specs.Prelude.{ℕ, length};

    ghost Value = { ℕ };

    ghost view = { λ a. length a.posts.items };
}

impl Posts {
    /// A post with no token for each of so many seats.
    ///
    /// # Errors
    ///
    /// Out of memory.
    pub fn new(alloc: Global, seats: u8) -> Result<Posts, AllocError>
        ensures { IfOk result (λ posts. posts ≡ seats) }
    {
        let mut posts = Vec::with_capacity(alloc, usize::from(seats))?;
        for _ in 0..seats {
            posts.push(Post::new(alloc)?)?;
        }
        Ok(Posts { posts })
    }

    /// Leaves a token for each of these seats but `own`.
    pub fn put<R: Wait>(&self, rt: &R, seats: ResourceSet, own: u8) {
        for seat in seats.iter() {
            if seat != own {
                if let Some(post) = self.posts.get(usize::from(seat)) {
                    post.put(rt);
                }
            }
        }
    }

    /// Takes a token of the seat, or waits if there is none.
    pub fn rest<R: Wait>(&self, rt: &R, seat: u8)
        requires { seat < self.now }
    {
        self.posts[usize::from(seat)].rest(rt);
    }
}
