//! What the words of a call ask for.

/// What is done with the text: it is taken, and no more; or it is read, as a reply for a file with rows of so many numbers.
#[derive(Clone, Copy)]
pub enum Task {
    Take,
    Read(u32),
}

/// The task that these words ask for; the first is the program's name.
pub fn task_of(words: &[String]) -> Option<Task> {
    match words {
        [_, task] if task.as_str() == "take" => Some(Task::Take),
        [_, task, numbers] if task.as_str() == "read" => Some(Task::Read(numbers.parse().ok()?)),
        _ => None,
    }
}
