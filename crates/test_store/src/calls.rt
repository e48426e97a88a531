mod looks;
mod passes;
mod replies;
mod resources;
mod rows;
mod tight;
