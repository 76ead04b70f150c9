//! What the words of a call ask for.

/// What is done: the histories of standard input are played; or replies that give so many keys back are made, read and taken
/// in, or made and read alone.
#[derive(Clone, Copy)]
pub enum Task {
    Histories,
    Keys(u64),
    Replies(u64),
}

/// The task that these words ask for; the first is the program's name.
pub fn task_of(words: &[String]) -> Option<Task> {
    match words {
        [_, task] if task.as_str() == "histories" => Some(Task::Histories),
        [_, task, keys] if task.as_str() == "keys" => Some(Task::Keys(keys.parse().ok()?)),
        [_, task, keys] if task.as_str() == "replies" => Some(Task::Replies(keys.parse().ok()?)),
        _ => None,
    }
}
