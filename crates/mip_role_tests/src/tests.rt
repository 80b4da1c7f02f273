mod correspondent;
mod hex;
mod homeagent;
mod told;
