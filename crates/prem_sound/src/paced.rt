//! What the jobs and the stretches of a task's run on its own take.
