//! What the words of a call ask for.

/// What is done with a file: a ledger is made in it, of so many records of one size; its records are counted; one of its
/// payloads is read; or it is removed.
#[derive(Clone, Copy)]
pub enum Task {
    Append { records: u64, size: usize },
    Count,
    Payload(u64),
    Remove,
}

/// The file and the task that these words ask for; the first is the program's name.
pub fn task_of(words: &[String]) -> Option<(&str, Task)> {
    let [_, name, task, others @ ..] = words else {
        return None;
    };
    let task = match others {
        [] if task.as_str() == "count" => Task::Count,
        [] if task.as_str() == "remove" => Task::Remove,
        [number] if task.as_str() == "payload" => Task::Payload(number.parse().ok()?),
        [records, size] if task.as_str() == "append" => Task::Append {
            records: records.parse().ok()?,
            size: size.parse().ok()?,
        },
        _ => return None,
    };
    Some((name.as_str(), task))
}
