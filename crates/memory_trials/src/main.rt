//! Scenes of a desk in memory, one by its argument, or all. `tools/refuse_memory` runs each of them once for every request of memory that
//! it makes, and refuses that one.
//!
//! A scene prints what it sees. A step that is refused is printed with its reason, on a line that begins with `refused`, and is tried
//! again; a scene that can't be prepared begins anew. So without these lines a run prints what it would if nothing was refused.
#![tactic(auto)]

mod asking;
mod batches;
mod closing;
mod day;
mod desks;
mod pages;
mod scenes;

use crate::asking::{TRIES, Why};
use std::alloc::Global;
use std::rt::Env;
use std::{env, io};

/// A scene.
#[derive(Clone, Copy)]
enum Scene {
    Ask,
    AskInDoubt,
    Recover,
    Close,
    HearAndPage,
    Batch,
}

// The scenes, each with its name.
const SCENES: &[(&str, Scene)] = &[
    ("ask", Scene::Ask),
    ("ask_in_doubt", Scene::AskInDoubt),
    ("recover", Scene::Recover),
    ("close", Scene::Close),
    ("hear_and_page", Scene::HearAndPage),
    ("batch", Scene::Batch),
];

// Plays a scene once, unless it can't be prepared.
fn play<R: Print>(rt: &R, alloc: Global, scene: Scene) -> io::Result<Result<(), Why>> {
    match scene {
        Scene::Ask => scenes::ask(rt, alloc, false),
        Scene::AskInDoubt => scenes::ask(rt, alloc, true),
        Scene::Recover => scenes::recover(rt, alloc),
        Scene::Close => closing::close(rt, alloc),
        Scene::HearAndPage => pages::hear_and_page(rt, alloc),
        Scene::Batch => batches::batch(rt, alloc),
    }
}

// Plays a scene. It begins anew if it can't be prepared.
fn play_prepared<R: Print>(rt: &R, alloc: Global, name: &str, scene: Scene) -> io::Result<()> {
    println!(rt; "scene {name}")?;
    for _ in 0..TRIES {
        match play(rt, alloc, scene)? {
            Ok(()) => return Ok(()),
            Err(_) => println!(rt; "refused: the scene isn't prepared")?,
        }
    }
    println!(rt; "never prepared")
}

// The argument, if there is one.
fn scene_named(rt: &(impl Env + AllocGlobal)) -> io::Result<Option<String>> {
    Ok(env::args(rt)?.nth(1))
}

fn main(rt: HostRuntime) -> io::Result<()> {
    let named = scene_named(&rt)?;
    for (name, scene) in SCENES {
        let is_asked = match &named {
            Some(word) => word.as_str() == *name,
            None => true,
        };
        if is_asked {
            play_prepared(&rt, rt.alloc(), name, *scene)?;
        }
    }
    drop(named);
    Ok(())
}
