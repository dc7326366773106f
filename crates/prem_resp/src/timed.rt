//! The jobs of an image whose tasks join end in time: along weaves that are parted into scopes, by what these are charged, and so at
//! the tasks' pace.
ghost use Rattle.prem_resp.specs.Timed.Timed.{JoinedImagesGoByCharges, JoinedImagesMeetDeadlines};

/// Where each task of an image joins along a weave that is parted into scopes, and the busy period of a task's level, by what these
/// are charged, lasts no longer than the task's period, each job of the task has ended so many cycles behind its release, in
/// every run of the image; and each compatible interval that has ended has taken at most the longest of its task, its switch counted.
pub fn joined_images_go_by_charges()
    ensures { JoinedImagesGoByCharges }
{}

/// Where each task of an image joins at its pace, and the busy period of a task's level lasts no longer than the task's
/// period, each job of the task has ended so many cycles behind its release, in every run of the image.
pub fn joined_images_meet_deadlines()
    ensures { JoinedImagesMeetDeadlines }
{}
